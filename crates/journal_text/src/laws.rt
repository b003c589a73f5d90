//! Laws of the format: a text is that of one run, and what is printed is read.

ghost use Rattle.std.specs.Prelude.{◌≡◌, ◌≤◌, ◌⊎◌, Result, Ok, Err, IfOk, IfErr, length};
ghost use Rattle.journal_text.specs.declared.book.Book.{Book};
ghost use Rattle.journal_text.specs.declared.fault.BookFault.{BookFault};
ghost use Rattle.journal_text.specs.declared.fault.BookFault.TheVariants.{NoMemory};
ghost use Rattle.journal_text.specs.Fits.{IsBook};
ghost use Rattle.journal_text.specs.BookText.{text_of_book};
ghost use Rattle.journal_text.specs.Faults.{IsReadAs, HasCause};

/// The law that two runs have two texts.
pub fn texts_of_runs_differ()
    ensures { (a b : Book) → IsBook a → IsBook b → text_of_book a ≡ text_of_book b → a ≡ b }
{}

/// The law that what `read_book` answers of the text of a run within the limits is that run, unless memory runs out.
pub fn printed_runs_read_back()
    ensures { (book : Book) (result : Result Book BookFault) → IsBook book
        → length (text_of_book book) ≤ 16777216 → length book.journal ≤ 4096 → length book.hosts ≤ 4194304
        → IfOk result (IsReadAs (text_of_book book)) → IfErr result (HasCause (text_of_book book))
        → (result ≡ Ok book) ⊎ (result ≡ Err NoMemory) }
{}
