//! What is proved of the text of cases. Each function does nothing; its contract is the law.
ghost use Rattle.std.specs.Prelude.{◌≡◌, ℕ, ◌≤◌, List, length, Ok};
ghost use Rattle.bf_case.specs.declared.case.Case.{Case};
ghost use Rattle.bf_case.specs.Case.{IsValid};
ghost use Rattle.bf_case.specs.CaseText.{case_text};
ghost use Rattle.bf_text.specs.Reading.{input_limit, reading};

/// What is written of a valid case is read as that case, where it isn't longer than an input may be.
pub fn what_is_written_is_read()
    ensures { (c : Case) → IsValid c → length (case_text c) ≤ input_limit → reading (case_text c) ≡ Ok c }
{}

/// A case that is read is valid.
pub fn what_is_read_is_valid()
    ensures { (bytes : List ℕ) (c : Case) → reading bytes ≡ Ok c → IsValid c }
{}
