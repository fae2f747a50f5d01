//! A law of images: they name their words.

ghost use Rattle.std.specs.Prelude.{◌≡◌, ◌<◌, ◌^◌, ℕ, List, slice_index};
ghost use Rattle.image_file.specs.Images.{image_of};

/// Two devices with the same bytes have the same words: what was written is what is read.
pub fn bytes_name_words()
    ensures { (xs ys : List ℕ) → ((i : ℕ) → slice_index xs i < 2 ^ 32)
        → ((i : ℕ) → slice_index ys i < 2 ^ 32) → image_of xs ≡ image_of ys → xs ≡ ys }
{}
