//! The laws of logical lines: each is the contract of a function that does nothing.

ghost use Rattle.blif_lines.specs.Laws.{LinesFitTheText, PhysicalLinesAreTheText, WrittenLinesAreReadBack};

/// Law: the physical lines have no line feed, and put together again, with a line feed behind each,
/// they are the text.
pub fn physical_lines_are_the_text()
    ensures { PhysicalLinesAreTheText }
{}

/// Law: each logical line has a word, and all lines together have no more words than the text has
/// bytes.
pub fn lines_fit_the_text()
    ensures { LinesFitTheText }
{}

/// Law: logical lines of plain words, each written on one or more physical lines with blanks and
/// comments behind the words, are read back, with the numbers of their first physical lines.
pub fn written_lines_are_read_back()
    ensures { WrittenLinesAreReadBack }
{}
