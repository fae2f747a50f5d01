//! A plain reader of devices, which shares nothing with the program: what words stand for, by the page on the device alone.

/// Where the words of a set stand whose objects have one word and two slots each, and whose index is one page.
#[derive(Drop)]
pub(crate) struct Shape<'a> {
    /// Word 0.
    pub(crate) magic: u32,
    /// The words from 3 on, up to the index: the numbers, the directory and the code.
    pub(crate) header: &'a [u32],
    /// The place of the root.
    pub(crate) root: usize,
    /// The roots that name the first copy of the index, and the second.
    pub(crate) roots: [u32; 2],
    /// Where these begin.
    pub(crate) copies: [usize; 2],
    /// How many words of a copy are read.
    pub(crate) words: usize,
    /// Where the slots begin.
    pub(crate) slots: usize,
    pub(crate) objects: usize,
    pub(crate) records: u32,
    pub(crate) programs: u32,
}

// a word behind a place, 0 where there is none
fn word(words: &[u32], at: usize, i: usize) -> u32 {
    words.get(at.saturating_add(i)).copied().unwrap_or(0)
}

/// A copy of the index, and the words that it stands in.
#[derive(Clone, Copy)]
pub(crate) struct Held<'a> {
    words: &'a [u32],
    copy: usize,
    slots: usize,
    objects: usize,
}

impl Held<'_> {
    // index word i
    fn index(&self, i: usize) -> u32 {
        word(self.words, self.copy, i)
    }

    /// The greatest point.
    pub(crate) fn clock(&self) -> u32 {
        self.index(0)
    }

    /// How many finishes there were.
    pub(crate) fn number(&self) -> u32 {
        self.index(1)
    }

    /// The id of the next task.
    pub(crate) fn next(&self) -> u32 {
        self.index(2)
    }

    /// The task, the point and the exit code of the last finish.
    pub(crate) fn last(&self) -> (u32, u32, u32) {
        (self.index(3), self.index(4), self.index(6))
    }

    /// How many boots there were.
    pub(crate) fn boots(&self) -> u32 {
        word(self.words, 2, 0)
    }

    /// The newest word of an object.
    pub(crate) fn object(&self, o: usize) -> u32 {
        let slot = self.index(o.saturating_add(9)) as usize;
        let place = self.slots.saturating_add(o.saturating_mul(2));
        word(self.words, place, slot)
    }

    /// The id and the argument of the first open task.
    pub(crate) fn open(&self) -> Option<(u32, u32)> {
        let first = self.objects.saturating_add(9);
        if self.index(8) == 0 {
            return None;
        }
        Some((self.index(first), self.index(first.saturating_add(2))))
    }

    // whether numbers could run out
    fn is_worn(&self) -> bool {
        self.number().max(self.next()).max(self.boots()) > 4_000_000_000
    }
}

/// What words stand for.
#[derive(Clone, Copy)]
pub(crate) enum Stands<'a> {
    Blank,
    /// At this place.
    Damaged(usize),
    Worn,
    Holds(Held<'a>),
}

/// What these words stand for.
pub(crate) fn read_words<'a>(shape: &Shape, words: &'a [u32]) -> Stands<'a> {
    if word(words, 0, 0) == 0 {
        return Stands::Blank;
    }
    if let Some(place) = faulty_head(shape, words) {
        return Stands::Damaged(place);
    }
    let [first, second] = shape.copies;
    let held = Held {
        words,
        copy: if word(words, shape.root, 0) == shape.roots[0] {
            first
        } else {
            second
        },
        slots: shape.slots,
        objects: shape.objects,
    };
    for i in 0..shape.words {
        if is_faulty(shape, &held, i) {
            return Stands::Damaged(held.copy.saturating_add(i));
        }
    }
    if held.is_worn() {
        return Stands::Worn;
    }
    Stands::Holds(held)
}

// the place of the first faulty word before the index: the root is read as word 1, or behind all others
fn faulty_head(shape: &Shape, words: &[u32]) -> Option<usize> {
    let root = word(words, shape.root, 0);
    let is_root = root == shape.roots[0] || root == shape.roots[1];
    if word(words, 0, 0) != shape.magic {
        return Some(0);
    }
    if shape.root == 1 && !is_root {
        return Some(1);
    }
    for (j, expected) in shape.header.iter().enumerate() {
        if word(words, 3, j) != *expected {
            return Some(j.saturating_add(3));
        }
    }
    if is_root { None } else { Some(shape.root) }
}

// whether an index word is faulty, by those before it
fn is_faulty(shape: &Shape, held: &Held, i: usize) -> bool {
    let word = held.index(i);
    let records = shape.objects.saturating_add(9);
    if i < 9 {
        is_faulty_number(shape, held, i, word)
    } else if i < records {
        word >= 2
    } else {
        is_faulty_record(shape, held, i, i.saturating_sub(records), word)
    }
}

// one of the first nine
fn is_faulty_number(shape: &Shape, held: &Held, i: usize, word: u32) -> bool {
    let (clock, next) = (held.clock(), held.next());
    let (task, _, _) = held.last();
    match i {
        0 => false,
        1 => word < clock,
        2 => word == 0,
        8 => word > shape.records,
        _ if held.number() == 0 => word != 0,
        3 => word == 0 || word >= next,
        4 => word > clock,
        5 => word > 15,
        6 => held.index(5) != 0 && word != 0,
        _ => word <= task || word > next || next.saturating_sub(word) > 8,
    }
}

// word k of the records; those behind the open tasks are 0, and so is what is left of a page
fn is_faulty_record(shape: &Shape, held: &Held, i: usize, k: usize, word: u32) -> bool {
    let before = held.index(i.saturating_sub(3));
    if k / 3 >= held.index(8) as usize {
        return word != 0;
    }
    match k % 3 {
        0 => word == 0 || word >= held.next() || k >= 3 && word <= before,
        1 => word >= shape.programs,
        _ => false,
    }
}
