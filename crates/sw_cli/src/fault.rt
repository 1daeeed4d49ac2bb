//! Refusals on standard error.

ghost use Rattle.std.specs.Prelude.{◌≡◌, ◌++◌, codes};
ghost use Rattle.sw_cli.specs.Faults.{fault_line, labelled, line_text, refusal_text, short_text, status_of};
ghost use Rattle.sw_query.specs.Refusals.{why_name};
ghost use Rattle.sw_lang.specs.Sinks.{Wrote};

use sw_lang::{write_all, write_number};
use sw_rows::{Refusal, Sink, Why};

/// The status that a program ends with: 2 where the fault lies in the table, the script or another text that it was
/// given, or in reading them, else 3.
pub fn status(refusal: &Refusal) -> u8
    ensures { result ≡ status_of refusal.now }
{
    match refusal {
        Refusal::BadTable { .. }
        | Refusal::BadLine { .. }
        | Refusal::UnknownAttribute { .. }
        | Refusal::TooMany { .. }
        | Refusal::Input => 2,
        _ => 3,
    }
}

/// A number after its label.
pub(crate) fn write_labelled<W: Sink>(label: &[u8], number: u64, out: &mut W) -> Result<(), Refusal>
    ensures { Wrote W.taken W.failed out.old out.new result (labelled label.now number) }
{
    write_all(out, label)?;
    write_number(number, out)
}

/// Two numbers, each after its label.
pub(crate) fn write_pair<W: Sink>(
    label: &[u8],
    number: u64,
    next_label: &[u8],
    next: u64,
    out: &mut W,
) -> Result<(), Refusal>
    ensures { Wrote W.taken W.failed out.old out.new result
        (labelled label.now number ++ labelled next_label.now next) }
{
    write_labelled(label, number, out)?;
    write_labelled(next_label, next, out)
}

fn write_why_name<W: Sink>(why: Why, out: &mut W) -> Result<(), Refusal>
    ensures { Wrote W.taken W.failed out.old out.new result (why_name why) }
{
    match why {
        Why::Encoding => write_all(out, b"Encoding"),
        Why::Length => write_all(out, b"Length"),
        Why::Word => write_all(out, b"Word"),
        Why::End => write_all(out, b"End"),
        Why::Value => write_all(out, b"Value"),
        Why::History => write_all(out, b"History"),
        Why::Cuts => write_all(out, b"Cuts"),
    }
}

fn write_why<W: Sink>(why: Why, out: &mut W) -> Result<(), Refusal>
    ensures { Wrote W.taken W.failed out.old out.new result (codes " why " ++ why_name why) }
{
    write_all(out, b" why ")?;
    write_why_name(why, out)
}

fn write_bad_line<W: Sink>(line: u64, why: Why, out: &mut W) -> Result<(), Refusal>
    ensures { Wrote W.taken W.failed out.old out.new result (line_text line why) }
{
    write_labelled(b"3 line ", line, out)?;
    write_why(why, out)
}

fn write_unknown<W: Sink>(name: &[u8], out: &mut W) -> Result<(), Refusal>
    ensures { Wrote W.taken W.failed out.old out.new result (codes "4 name " ++ name.now) }
{
    write_all(out, b"4 name ")?;
    write_all(out, name)
}

fn write_short<W: Sink>(used: u64, want: u64, capacity: u64, out: &mut W) -> Result<(), Refusal>
    ensures { Wrote W.taken W.failed out.old out.new result (short_text used want capacity) }
{
    write_labelled(b"7 used ", used, out)?;
    write_pair(b" want ", want, b" capacity ", capacity, out)
}

/// The number of a refusal and its fields.
fn write_text<W: Sink>(refusal: &Refusal, out: &mut W) -> Result<(), Refusal>
    ensures { Wrote W.taken W.failed out.old out.new result (refusal_text refusal.now) }
{
    match refusal {
        Refusal::NoMemory => write_all(out, b"1"),
        Refusal::BadTable { rec, field } => write_pair(b"2 record ", *rec, b" field ", *field, out),
        Refusal::BadLine { line, why } => write_bad_line(u64::from(*line), *why, out),
        Refusal::UnknownAttribute { name } => write_unknown(name.as_str().as_bytes(), out),
        Refusal::TooMany { limit } => write_labelled(b"5 limit ", *limit, out),
        Refusal::NoBlank { boxes, needed } => write_pair(
            b"6 boxes ",
            *boxes,
            b" needed ",
            *needed,
            out,
        ),
        Refusal::Short {
            used,
            want,
            capacity,
        } => write_short(*used, *want, *capacity, out),
        Refusal::Contended { seen, found } => write_pair(
            b"8 seen ", *seen, b" found ", *found, out,
        ),
        Refusal::SharesOut { made, given } => write_pair(
            b"9 made ", *made, b" given ", *given, out,
        ),
        Refusal::HistoryFull { entries } => write_labelled(b"10 entries ", *entries, out),
        Refusal::NotLegal { index } => write_labelled(b"11 index ", *index, out),
        Refusal::Input => write_all(out, b"12"),
        Refusal::Output => write_all(out, b"13"),
        Refusal::Ahead { seen, told } => write_pair(b"14 seen ", *seen, b" told ", *told, out),
    }
}

fn write_text_line<W: Sink>(refusal: &Refusal, out: &mut W) -> Result<(), Refusal>
    ensures { Wrote W.taken W.failed out.old out.new result (refusal_text refusal.now ++ codes "\n") }
{
    write_text(refusal, out)?;
    write_all(out, b"\n")
}

/// Writes the line that tells of a refusal: `sideways: refused `, its number, and its fields by their names.
///
/// Takes no memory. Refused `Output` where the sink fails; then a beginning of the line went out.
pub fn write_fault<W: Sink>(refusal: &Refusal, out: &mut W) -> Result<(), Refusal>
    ensures { Wrote W.taken W.failed out.old out.new result (fault_line refusal.now) }
{
    write_all(out, b"sideways: refused ")?;
    write_text_line(refusal, out)
}
