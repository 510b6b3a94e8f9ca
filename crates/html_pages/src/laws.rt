//! Laws of the words of commands. A function that does nothing, whose clauses are the law.

ghost use Rattle.std.specs.Prelude.{◌≡◌, ◌<◌, ℕ, List, Some, length};
ghost use Rattle.html_pages.specs.Commands.{shell_reads, shell_word, unquoted};

/// What stands for a word is some text, and a shell reads it as this word.
pub fn a_shell_reads_the_word()
    ensures some { (word : List ℕ) → 0 < length (shell_word word) }
    ensures word { (word : List ℕ) → shell_reads unquoted (shell_word word) ≡ Some word }
{}
