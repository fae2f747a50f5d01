//! What a root names: whether a word is one, and which copy of each page is current.

ghost use Rattle.std.specs.Prelude.{◌≡◌, ◌/◌, ◌%◌, ◌<◌, true};
ghost use Rattle.device_model.specs.Layouts.{index_place, index_reads};
ghost use Rattle.device_model.specs.Devices.{Device, layout_on};
ghost use Rattle.shadow_index.specs.Tells.{IsLayoutOf};

use crate::kind::DeviceKind;
use crate::layout::Layout;

impl Layout {
    /// Whether a word is a root.
    pub fn is_root(&self, word: u32) -> bool
        ensures { (d : Device) → IsLayoutOf d self.now → result ≡ (layout_on d).is_root word }
    {
        match self.kind {
            DeviceKind::Plain => word == 1 || word == 2,
            DeviceKind::Paged | DeviceKind::Migrated => word >> self.pages
                == 1 << (31 - self.pages),
        }
    }

    /// The root that a format leaves: it names copy 0 of each page.
    pub fn first_root(&self) -> u32
        ensures { (d : Device) → IsLayoutOf d self.now → result ≡ (layout_on d).first_root }
    {
        match self.kind {
            DeviceKind::Plain => 1,
            DeviceKind::Paged | DeviceKind::Migrated => 0x8000_0000,
        }
    }

    /// Which copy of a page a root names.
    pub fn copy_of(&self, root: u32, page: u8) -> u8
        requires { page < 32 }
        ensures copy { result < 2 }
        ensures exact { (d : Device) → IsLayoutOf d self.now
            → (layout_on d).is_root root ≡ true → result ≡ (layout_on d).copy root page }
    {
        match self.kind {
            DeviceKind::Plain => u8::from(root == 2),
            DeviceKind::Paged | DeviceKind::Migrated => (root >> page & 1) as u8,
        }
    }

    /// The place of index word i, where a root says that it is.
    pub fn index_at(&self, root: u32, i: u32) -> u32
        requires { (d : Device) × IsLayoutOf d self.now × (i < index_reads (layout_on d)) }
        ensures { (d : Device) → IsLayoutOf d self.now
            → (layout_on d).is_root root ≡ true → i < index_reads (layout_on d)
            → result ≡ index_place (layout_on d) root i }
    {
        let (page, rest) = self.page_of(i);
        self.page_at(page, self.copy_of(root, page)) + rest
    }

    /// The page of index word i, and which of its words it is. A page has 32 or 128 words, or all.
    fn page_of(&self, i: u32) -> (u8, u32)
        requires { (d : Device) × IsLayoutOf d self.now × (i < index_reads (layout_on d)) }
        ensures { (d : Device) → IsLayoutOf d self.now → i < index_reads (layout_on d)
            → (result.0 ≡ i / (layout_on d).page_words)
            × (result.1 ≡ i % (layout_on d).page_words) }
    {
        match self.kind {
            DeviceKind::Plain => (0, i),
            DeviceKind::Paged | DeviceKind::Migrated => {
                if self.page_words == 32 {
                    ((i / 32) as u8, i % 32)
                } else {
                    ((i / 128) as u8, i % 128)
                }
            }
        }
    }
}
