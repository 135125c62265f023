//! Laws of the definitions of this crate. Each is the contract of a function that does nothing.
ghost use Rattle.std.specs.Prelude.{◌≡◌, ℕ, List};
ghost use Rattle.tclv_text.specs.Quotes.{list_text};
ghost use Rattle.tclv_model.specs.declared.error_codes.ErrorCode.{ErrorCode};
ghost use Rattle.tclv_model.specs.ErrorCodes.{error_code, code_words};

/// An error code is the canonical text of the list of its words.
pub fn error_codes_are_lists()
    ensures { (errorcode : ErrorCode) (name : List ℕ) → error_code errorcode name ≡ list_text (code_words errorcode name) }
{}
