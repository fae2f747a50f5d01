//! The words of a device as bytes, and bytes as words.

ghost use Rattle.std.specs.Prelude.{◌≡◌, ◌≢◌, ◌↔◌, ◌*◌, Err, IfOk, length, replicate};
ghost use Rattle.image_file.specs.Images.{image_of};
ghost use Rattle.image_file.specs.declared.words.LoadFault.TheVariants.{Read, Size};

use byteorder::{ByteOrder, LittleEndian};
use nv_base::NoMemory;
use std::alloc::Global;

/// Why a file gave no device.
#[derive(Clone, Copy, Debug, PartialEq, Eq)]
pub enum LoadFault {
    /// It cannot be read.
    Read,
    /// It has another length than that of a device.
    Size,
    /// There was no memory for the words.
    NoMemory,
}

/// So many words, all 0, if there is memory.
pub(crate) fn zeros(alloc: Global, count: u32) -> Result<Vec<u32>, NoMemory>
    ensures { IfOk result (λ words. words.items ≡ replicate count 0) }
{
    Ok(vec![in alloc; 0u32; count as usize]?)
}

// puts the words whose bytes these are in place of as many
fn fill(bytes: &[u8], words: &mut [u32])
    requires { length bytes.now ≡ 4 * length words.old }
    ensures { image_of words.new ≡ bytes.now }
{
    LittleEndian::read_u32_into(bytes, words);
}

/// The so many words whose bytes these are. `Size` exactly where there are not four bytes for each word.
pub fn words_of(alloc: Global, bytes: &[u8], count: u32) -> Result<Vec<u32>, LoadFault>
    ensures words { IfOk result (λ words. image_of words.items ≡ bytes.now) }
    ensures number { IfOk result (λ words. length words.items ≡ count) }
    ensures size { (result ≡ Err Size) ↔ (length bytes.now ≢ 4 * count) }
    ensures read { result ≢ Err Read }
{
    if bytes.len() != 4 * count as usize {
        return Err(LoadFault::Size);
    }
    let Ok(mut words) = zeros(alloc, count) else {
        return Err(LoadFault::NoMemory);
    };
    fill(bytes, words.as_mut_slice());
    Ok(words)
}

/// Puts the bytes of these words in place of those in a buffer.
pub fn put_image(words: &[u32], bytes: &mut [u8])
    requires { length bytes.old ≡ 4 * length words.now }
    ensures { bytes.new ≡ image_of words.now }
{
    LittleEndian::write_u32_into(words, bytes);
}
