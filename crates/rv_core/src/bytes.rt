// Words in a memory of bytes, the low byte first.

ghost use Rattle.std.specs.Prelude.{◌≡◌, ◌+◌, ◌*◌, ◌^◌, ◌<◌, ◌≤◌, length, replicate};
ghost use Rattle.rv_core.specs.Bytes.{word_at, half_at, put_half, put_word, words_at, IsZeroFrom};
ghost use Rattle.rv_core.specs.Task.{loaded};

/// The two bytes at an address, the low byte first.
#[inline(always)]
pub fn half_in(memory: &[u8], at: usize) -> u32
    requires { at + 2 ≤ length memory.now }
    ensures value { result ≡ half_at memory.now at }
    ensures fits { result < 2 ^ 16 }
{
    memory[at] as u32 + ((memory[at + 1] as u32) << 8)
}

/// The four bytes at an address, the low byte first.
#[inline(always)]
pub fn word_in(memory: &[u8], at: usize) -> u32
    requires { at + 4 ≤ length memory.now }
    ensures { result ≡ word_at memory.now at }
{
    let low = memory[at] as u32 + ((memory[at + 1] as u32) << 8);
    low + ((memory[at + 2] as u32) << 16) + ((memory[at + 3] as u32) << 24)
}

/// Puts 16 bits at an address, the low byte first.
#[inline(always)]
pub fn put_half_in(memory: &mut [u8], at: usize, half: u32)
    requires room { at + 2 ≤ length memory.old }
    requires fits { half < 2 ^ 16 }
    ensures { memory.new ≡ put_half memory.old at half }
{
    memory[at] = (half % 256) as u8;
    memory[at + 1] = (half / 256) as u8;
}

/// Puts 32 bits at an address, the low byte first.
#[inline(always)]
pub fn put_word_in(memory: &mut [u8], at: usize, word: u32)
    requires { at + 4 ≤ length memory.old }
    ensures { memory.new ≡ put_word memory.old at word }
{
    memory[at] = (word % 256) as u8;
    memory[at + 1] = (word / 256 % 256) as u8;
    memory[at + 2] = (word / 65536 % 256) as u8;
    memory[at + 3] = (word / 16777216) as u8;
}

fn clear(memory: &mut [u8], used: usize)
    requires inside { used ≤ length memory.old }
    requires zeros { IsZeroFrom used memory.old }
    ensures { memory.new ≡ replicate (length memory.old) 0 }
{
    memory[..used].fill(0);
}

/// Puts the words of a code at 0 and on, and zeros behind them. The bytes from `used` on are zero already, and are not touched.
pub fn load_code(memory: &mut [u8], used: usize, code: &[u32])
    requires fits { 4 * length code.now ≤ length memory.old }
    requires inside { used ≤ length memory.old }
    requires zeros { IsZeroFrom used memory.old }
    ensures exact { memory.new ≡ loaded code.now (length memory.old) }
    ensures zeros { IsZeroFrom (4 * length code.now) memory.new }
{
    clear(memory, used);
    let mut at = 0;
    for word in code {
        put_word_in(memory, at, *word);
        at += 4;
    }
}

/// Copies the words at an address out, as many as `into` has.
pub fn words_out(memory: &[u8], at: usize, into: &mut [u32])
    requires { at + 4 * length into.old ≤ length memory.now }
    ensures { into.new ≡ words_at memory.now at (length into.old) }
{
    let mut from = at;
    for word in into.iter_mut() {
        *word = word_in(memory, from);
        from += 4;
    }
}
