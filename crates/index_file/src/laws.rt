//! Laws of the form of an index.
ghost use Rattle.index_file.specs.OneReading.{OneRowALine, OneTextForRows, PrintedReadsBack, ReadsOneWay};

/// A law: at most one row has a line.
pub fn one_row_a_line()
    ensures { OneRowALine }
{}

/// A law: a text is read in one way, as one list of rows or as wrong in one line for one cause.
pub fn reads_one_way()
    ensures { ReadsOneWay }
{}

/// A law: what was printed is read as the rows that were printed, and as nothing else.
pub fn printed_reads_back()
    ensures { PrintedReadsBack }
{}

/// A law: two texts that are read as the same rows are one.
pub fn one_text_for_rows()
    ensures { OneTextForRows }
{}
