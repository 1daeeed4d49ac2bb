//! Laws of what goes out. Each function has no body to speak of: its contract is the law.

ghost use Rattle.sw_outputs.specs.CsvReading.{ValuesAreReadBack};
ghost use Rattle.sw_outputs.specs.JsonReading.{LinesAreReadBack};
ghost use Rattle.sw_outputs.specs.TableReading.{TablesAreReadBack};

/// The text of a line is JSON, and reading it tells the reply: of a reply of the form that its call is answered by, each
/// number by its digits, each flag and each text.
pub fn lines_are_read_back()
    ensures { LinesAreReadBack }
{}

/// A table that is written of a reply of rows is read as just these rows: the names and kinds of what the call shows, and
/// its cells, texts as the texts that they are, under the keys 1, 2, 3 and so on. Codes of texts may be others.
pub fn tables_are_read_back()
    ensures { TablesAreReadBack }
{}

/// Reading the comma-separated values that go out of a call, as `csv` reads them, gives just the records of what it was
/// answered, whatever bytes its texts have, and these tell the reply.
pub fn values_are_read_back()
    ensures { ValuesAreReadBack }
{}
