//! Laws of whole numbers and their texts.
ghost use Rattle.std.specs.Prelude.{◌≡◌, ℤ, Ok};
ghost use Rattle.std.specs.Int.{w64};
ghost use Rattle.std.specs.Int.RustNames.{FitsSigned};
ghost use Rattle.tclv_text.specs.Numbers.{whole, whole_text};

/// The decimal text of a number of 64 bits reads as that number.
pub fn decimal_text_reads_back()
    ensures { (z : ℤ) → FitsSigned w64 z → whole (whole_text z) ≡ Ok z }
{}
