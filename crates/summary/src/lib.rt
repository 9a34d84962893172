// The summary of a log's counts: the record for the spreadsheet, the report's text and the spreadsheet's row (document 01, "The log and
// its report").
#![tactic(auto)]

mod binary;
mod building;

ghost use Rattle.std.specs.Prelude.{◌≡◌, true, false, ◌≤◌, length, take, IfOk, MatchResult};
ghost use Rattle.answers.specs.Numbers.{number_of};
ghost use Rattle.answers.specs.declared.Refusal.TheVariants.{OutsideRule};
ghost use Rattle.text.specs.Ascii.{ascii};
ghost use Rattle.summary.specs.Summary.{told_summary, summary_of, summarised_of};
ghost use Rattle.summary.specs.Summary.{share as Summary·share};
ghost use Rattle.summary.specs.Report.{told_text, line, frequency, thousandths, report_of, delivered, reported_of, refusal_line, report_log_of};
ghost use Rattle.summary.specs.Export.{sheet_row, sheet_of, is_summary, exported_of, export_log_of};
ghost use Rattle.summary.specs.Building.{content, Grows, Wrote};
ghost use Rattle.logs.specs.Log.{is_counts};

use answers::Refusal;
use band::{Channel, Kilohertz};
use building::Text;
use logs::{Counts, LogRead};

// The mean of corrected bits over the blocks that were read, and the share of the slots in which nothing was received, each beside
// the flag that says whether it exists: document 01 has flags, so they are no Options. With a clear flag the number is positive zero.
#[derive(Clone, Copy)]
pub struct Summary {
    pub mean_exists: bool,
    pub mean: f64,
    pub missing_exists: bool,
    pub missing: f64,
}

// Counts that some accepted log gives.
#[derive(Clone, Copy)]
struct Accepted {
    counts: Counts,
    ghost given: { is_counts counts ≡ true },
}

// The summary record of some counts. Refused: 11 for counts that no accepted log gives.
#[tactic(auto, unfolding(crate::specs::Summary::summarised_of))]
pub fn summarise(counts: Counts) -> Result<Summary, Refusal>
    ensures { told_summary result ≡ summarised_of counts }
{
    Ok(Accepted::of(counts)?.summary())
}

// Writes the report of some counts to the start of `out`. Refused, with `out` as before: 11 for counts that no accepted log gives, 10
// for an output that is shorter than the text.
#[tactic(auto, unfolding(crate::specs::Report::reported_of))]
pub fn report(counts: Counts, out: &mut [u8]) -> Result<usize, Refusal>
    ensures { told_text result out.new ≡ reported_of counts out.old }
{
    let accepted = Accepted::of(counts)?;
    let mut text = Text::new();
    accepted.put_report(&mut text);
    text.deliver(out)
}

// Writes the row of some counts and their summary to the start of `out`: channel, kilohertz, the seven counts, the mean and the missing
// share, parted by tabs and ended by a line feed. What does not exist is an empty cell. Refused, with `out` as before: 11 for counts
// that no accepted log gives and for a record that is not bit for bit their summary, 10 for an output that is shorter than the row.
#[tactic(auto, unfolding(crate::specs::Export::exported_of))]
pub fn export(counts: Counts, summary: Summary, out: &mut [u8]) -> Result<usize, Refusal>
    ensures { told_text result out.new ≡ exported_of counts summary out.old }
{
    let accepted = Accepted::of(counts)?;
    if !accepted.has_summary(summary) {
        return Err(Refusal::OutsideRule);
    }
    let mut text = Text::new();
    accepted.put_row(&mut text);
    text.deliver(out)
}

// Writes what the program `report` answers to a log to the start of `out`: the report, or of a log that was refused `refused`, the
// answer's number and the line number, parted by tabs and ended by a line feed. Refused, with `out` as before: 11 for counts of an
// accepted log that none gives, 10 for an output that is shorter than the text.
pub fn report_log(log: LogRead, out: &mut [u8]) -> Result<usize, Refusal>
    ensures out_after { told_text result out.new ≡ report_log_of log out.old }
    ensures length_in_bounds { IfOk result (λ n. (n ≤ length out.new) × (n ≡ length (take n out.new))) }
{
    write_log(log, out, report)
}

// Writes what the program `sheet` answers to a log likewise: a line with the names of the row's fields, and the row; or the refusal.
pub fn export_log(log: LogRead, out: &mut [u8]) -> Result<usize, Refusal>
    ensures out_after { told_text result out.new ≡ export_log_of log out.old }
    ensures length_in_bounds { IfOk result (λ n. (n ≤ length out.new) × (n ≡ length (take n out.new))) }
{
    write_log(log, out, sheet)
}

// Of an accepted log what `write` writes of its counts, and of one that was refused the refusal.
fn write_log<F: FnOnce(Counts, &mut [u8]) -> Result<usize, Refusal>>(
    log: LogRead,
    out: &mut [u8],
    write: F,
) -> Result<usize, Refusal>
    requires { F.IsAlwaysCallable write }
    ensures { MatchResult log.answer (λ _. Wrote F.FnOnce write log.counts out.old result out.new)
        (λ refusal. told_text result out.new ≡ delivered (refusal_line (number_of refusal) log.line) out.old) }
{
    match log.answer {
        Ok(()) => write(log.counts, out),
        Err(refusal) => {
            let mut text = Text::new();
            text.put(b"refused\t");
            text.put_field(u32::from(u8::from(refusal)), b'\t');
            text.put_field(log.line, b'\n');
            text.deliver(out)
        }
    }
}

// The row of some counts under the names of its fields. It begins and ends as `report` and `export` do; one function for that, with a
// closure for what is put between, would be no plainer.
#[tactic(auto, unfolding(crate::specs::Export::sheet_of))]
fn sheet(counts: Counts, out: &mut [u8]) -> Result<usize, Refusal>
    ensures { told_text result out.new ≡ sheet_of counts out.old }
{
    let accepted = Accepted::of(counts)?;
    let mut text = Text::new();
    text.put(
        b"channel\tkhz\tslots\tread\tclean\tbits\tnoword\tcheck\tmissing\tmean\tmissing share\n",
    );
    accepted.put_row(&mut text);
    text.deliver(out)
}

impl Accepted {
    // Refused: 11 for counts that no accepted log gives.
    fn of(counts: Counts) -> Result<Self, Refusal>
        ensures { MatchResult result (λ accepted. accepted.counts ≡ counts)
            (λ refusal. (is_counts counts ≡ false) × (refusal ≡ OutsideRule)) }
    {
        if logs::is_counts(counts) {
            Ok(Self { counts })
        } else {
            Err(Refusal::OutsideRule)
        }
    }

    #[tactic(auto, unfolding(crate::specs::Summary::summary_of))]
    fn summary(self) -> Summary
        ensures { result ≡ summary_of self.counts }
    {
        let counts = self.counts;
        Summary {
            mean_exists: counts.read != 0,
            mean: share(counts.bits, counts.read),
            missing_exists: counts.slots != 0,
            missing: share(counts.missing, counts.slots),
        }
    }

    // Whether a record is the summary, bit for bit.
    #[tactic(auto, using(crate::proofs::Same::mean_given, crate::proofs::Same::missing_given), unfolding(crate::specs::Export::is_summary))]
    fn has_summary(self, given: Summary) -> bool
        ensures { result ≡ is_summary given (summary_of self.counts) }
    {
        let own = self.summary();
        given.mean_exists == own.mean_exists
            && binary::same_bits(given.mean, own.mean)
            && given.missing_exists == own.missing_exists
            && binary::same_bits(given.missing, own.missing)
    }

    // The channel of an accepted log has a frequency.
    #[tactic(auto, using(crate::proofs::Texts::frequency_ok))]
    fn frequency(self) -> u32
        ensures { result ≡ frequency self.counts }
    {
        Kilohertz::try_from(Channel(self.counts.channel)).unwrap().0
    }

    #[tactic(auto, using(crate::proofs::Texts::grows_then), unfolding(crate::specs::Report::report_of))]
    fn put_report(self, text: &mut Text)
        ensures { Grows text.old (report_of self.counts) text.new }
    {
        let counts = self.counts;
        text.put_line(b"khz", self.frequency());
        text.put_line(b"slots", counts.slots);
        text.put_line(b"read", counts.read);
        text.put_line(b"clean", counts.clean);
        text.put_line(b"bits", counts.bits);
        text.put_line(b"noword", counts.noword);
        text.put_line(b"check", counts.check);
        text.put_line(b"missing", counts.missing);
        put_mean(text, counts);
    }

    fn put_row(self, text: &mut Text)
        ensures { Grows text.old (sheet_row self.counts (summary_of self.counts)) text.new }
    {
        let counts = self.counts;
        let numbers = [
            u32::from(counts.channel),
            self.frequency(),
            counts.slots,
            counts.read,
            counts.clean,
            counts.bits,
            counts.noword,
            counts.check,
            counts.missing,
        ];
        for number in numbers {
            text.put_field(number, b'\t');
        }
        let summary = self.summary();
        binary::put_cell(text, summary.mean_exists.then_some(summary.mean));
        text.put(b"\t");
        binary::put_cell(text, summary.missing_exists.then_some(summary.missing));
        text.put(b"\n");
    }
}

// A count is below 2^32, so it turns into a binary64 without loss. Document 01 asks for casts and for one division.
fn share(part: u32, whole: u32) -> f64
    ensures { result ≡ Summary·share part whole }
{
    if whole == 0 {
        return 0.0;
    }
    (part as f64) / (whole as f64)
}

fn put_mean(text: &mut Text, counts: Counts)
    ensures { Grows text.old (line (ascii "mean") (thousandths counts.bits counts.read)) text.new }
{
    text.put(b"mean\t");
    match (1000 * u64::from(counts.bits)).checked_div(u64::from(counts.read)) {
        Some(thousandths) => text.put_number(thousandths),
        None => text.put(b"-"),
    }
    text.put(b"\n");
}
