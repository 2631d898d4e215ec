// The library's boundary for C and Rust: every reply as one number of 64 bits, n · 2^32 + value. n is 0, or the number of the
// question that failed, and value is then the refusal's second number.
#![tactic(auto)]

ghost use Rattle.std.specs.Prelude.{◌≡◌, ◌∷◌, ◌++◌, ◌+◌, ◌*◌, ◌<◌, ◌≤◌, length, drop, set};
ghost use Rattle.std.proofs.Math.Option.{none, some};
ghost use Rattle.meaning.specs.Count.{count_of};
ghost use Rattle.meaning.specs.Outcome.{told};
ghost use Rattle.meaning.specs.Writing.{begin_of, begin_after, add_of, add_after, read_of};
ghost use Rattle.meaning.specs.Pattern.{read_pattern, none_given};
ghost use Rattle.meaning.specs.Windows.{plain};
ghost use Rattle.meaning.specs.Request.{words_of, ask_request, ask_starts, work_after, ask_search, search_words_of};
ghost use Rattle.checker.specs.Promise.{check_reply, check_of};
ghost use Rattle.finder.specs.Promise.{find_reply, find_of, said, out_after};
ghost use Rattle.pattern.specs.Promise.{counts_of};
ghost use Rattle.record.specs.Promise.{line_shown, timed_shown};
ghost use Rattle.searching.specs.Promise.{begin_reply, begun_told, begun_after};
ghost use Rattle.starts.specs.Promise as OfStarts;
ghost use Rattle.windows.specs.Promise.{options_of};
ghost use Rattle.writing.specs.Promise.{write_reply};
ghost use Rattle.exports.specs.Promise.{number_of, fields_of, read_number, read_after, count_number, count_after, pattern_number, pattern_after, check_number, Membership, find_number, FirstShortest, counted, starts_number, EachShortest, MovingNumber, FinishingNumber, version_number};
ghost use Rattle.exports.specs.Fits.{SaidFits};

use pattern::Counts;
use record::{Line, Written};
use refusals::{OutputError, Refusal};

// ---- the version

// Major, minor and patch, in thousands: 1.0.0.
#[unsafe(no_mangle)]
pub extern "C" fn chains_version() -> u64
    ensures { result ≡ version_number 1 0 0 }
{
    1000000
}

// ---- refusals and counts

// A refusal as a number: the question's above the low 32 bits, and the second number there.
fn refusal(q: u8, second: usize) -> u64
    requires { second < 4294967296 }
    ensures { result ≡ q * 4294967296 + second }
{
    q as u64 * 4294967296 + second as u64
}

// Puts two counts at the front of a list that has room for them.
fn put_two(counts: &mut [u32], first: usize, second: usize)
    requires { (2 ≤ length counts.old) × (first < 4294967296) × (second < 4294967296) }
    ensures { counts.new ≡ first ∷ second ∷ drop 2 counts.old }
{
    counts[0] = first as u32;
    counts[1] = second as u32;
}

// ---- records

// A length or a count of words, or why there is none, as a number.
fn write_number(r: Result<usize, Refusal>) -> u64
    ensures { result ≡ number_of (write_reply r) }
{
    match r {
        Ok(n) => n as u64,
        Err(e) => refusal(e.number(), 0),
    }
}

// Begins a record; value: its length.
#[unsafe(no_mangle)]
pub extern "C" fn chains_begin(buf: &mut [u8], places: u16) -> u64
    ensures reply { result ≡ number_of (told (begin_of buf.old places)) }
    ensures buffer { buf.new ≡ begin_after buf.old places }
{
    write_number(writing::begin_record(buf, places))
}

// The line of these fields.
fn line_with(start: u16, kind: u8, class: u8, sail: u32, finish: u16) -> Line
    ensures { (result.from ≡ start) × (result.kind ≡ kind) × (result.class ≡ class) × (result.sail ≡ sail) × (result.to ≡ finish) }
{
    Line {
        from: start,
        kind,
        class,
        sail,
        to: finish,
    }
}

// Adds a line; value: the record's new length.
#[unsafe(no_mangle)]
pub extern "C" fn chains_add(
    buf: &mut [u8],
    len: usize,
    from: u16,
    kind: u8,
    class: u8,
    sail: u32,
    to: u16,
) -> u64
    ensures reply { result ≡ number_of (told (add_of buf.old len (record { from = from; kind = kind; boat = record { class = class; sail = sail }; to = to; time = none }))) }
    ensures buffer { buf.new ≡ add_after buf.old len (record { from = from; kind = kind; boat = record { class = class; sail = sail }; to = to; time = none }) }
{
    let line = line_with(from, kind, class, sail, to);
    write_number(writing::add_line(buf, len, Written { line, time: None }))
}

// Adds a line with its time; value: the record's new length.
#[unsafe(no_mangle)]
pub extern "C" fn chains_add_timed(
    buf: &mut [u8],
    len: usize,
    from: u16,
    kind: u8,
    class: u8,
    sail: u32,
    to: u16,
    time: u32,
) -> u64
    ensures reply { result ≡ number_of (told (add_of buf.old len (record { from = from; kind = kind; boat = record { class = class; sail = sail }; to = to; time = some time }))) }
    ensures buffer { buf.new ≡ add_after buf.old len (record { from = from; kind = kind; boat = record { class = class; sail = sail }; to = to; time = some time }) }
{
    let line = line_with(from, kind, class, sail, to);
    let time = Some(time);
    write_number(writing::add_line(buf, len, Written { line, time }))
}

// Puts the five fields of a line at the front of a list that has room for them.
fn put_fields(fields: &mut [u32], l: Line)
    requires { 5 ≤ length fields.old }
    ensures { fields.new ≡ fields_of (line_shown l) ++ drop 5 fields.old }
{
    let new = [
        l.from as u32,
        l.kind as u32,
        l.class as u32,
        l.sail,
        l.to as u32,
    ];
    fields[..5].copy_from_slice(&new);
}

// Puts the time of a line after its five fields.
fn put_time(fields: &mut [u32], time: u32)
    requires { 6 ≤ length fields.old }
    ensures { fields.new ≡ set fields.old 5 time }
{
    fields[5] = time;
}

// Puts the six fields of a timed line at the front of a list that has room for them.
fn put_timed(fields: &mut [u32], l: Line, time: u32)
    requires { 6 ≤ length fields.old }
    ensures { fields.new ≡ fields_of (timed_shown l time) ++ drop 6 fields.old }
{
    put_fields(fields, l);
    put_time(fields, time);
}

// Reads a line back into the first words of a list: from, kind, class, sail number, to, and of a timed line its time; value: 5, of a timed line
// 6, or 0 where the list is shorter.
#[unsafe(no_mangle)]
pub extern "C" fn chains_read(rec: &[u8], line: u16, fields: &mut [u32]) -> u64
    ensures reply { result ≡ read_number (read_of rec.now line) (length fields.old) }
    ensures words { fields.new ≡ read_after (read_of rec.now line) fields.old }
{
    match record::read_line(rec, line) {
        Err(e) => refusal(e.number(), 0),
        Ok(Written { line, time: None }) => {
            if fields.len() < 5 {
                return 0;
            }
            put_fields(fields, line);
            5
        }
        Ok(
            Written {
                line,
                time: Some(time),
            },
        ) => {
            if fields.len() < 6 {
                return 0;
            }
            put_timed(fields, line, time);
            6
        }
    }
}

// Counts the different boats of a record: how many there are, and how many earlier lines were read to tell, into the first two words of a
// list; value: 2, or 0 where the list is shorter.
#[unsafe(no_mangle)]
pub extern "C" fn chains_boats(rec: &[u8], counts: &mut [u32]) -> u64
    ensures reply { result ≡ count_number (count_of rec.now) (length counts.old) }
    ensures words { counts.new ≡ count_after (count_of rec.now) counts.old }
{
    match boats::count_boats(rec) {
        Err(e) => refusal(e.number(), 0),
        Ok(n) => {
            let room = counts.len();
            if room < 2 {
                return 0;
            }
            put_two(counts, n.boats, n.reads);
            2
        }
    }
}

// ---- patterns

// Puts a pattern's unfolded count after the first two.
fn put_unfolded(counts: &mut [u32], unfolded: usize)
    requires { (3 ≤ length counts.old) × (unfolded ≤ 63) }
    ensures { counts.new ≡ set counts.old 2 unfolded }
{
    counts[2] = unfolded as u32;
}

// Reads a pattern: its commands, its deepest nesting of keeps and its unfolded count into the first three words of a list; value: 3, or
// 2 where the list has two words, which get the first two counts, or 0 where it is shorter.
#[unsafe(no_mangle)]
pub extern "C" fn chains_pattern(pat: &[u8], counts: &mut [u32]) -> u64
    ensures reply { result ≡ pattern_number (counts_of (read_pattern none_given pat.now)) (length counts.old) }
    ensures words { counts.new ≡ pattern_after (counts_of (read_pattern none_given pat.now)) counts.old }
{
    match pattern::read_pattern(pat) {
        Err(e) => refusal(e.number(), 0),
        Ok(
            Counts {
                commands,
                unfolded,
                keeps,
            },
        ) => {
            if counts.len() < 2 {
                return 0;
            }
            put_two(counts, commands, keeps);
            if counts.len() < 3 {
                return 2;
            }
            put_unfolded(counts, unfolded);
            3
        }
    }
}

// ---- requests

// How many words of work area a record and a pattern need; value: the words.
#[unsafe(no_mangle)]
pub extern "C" fn chains_words(rec: &[u8], pat: &[u8]) -> u64
    ensures { result ≡ number_of (told (words_of rec.now pat.now)) }
{
    write_number(request::words_needed(rec, pat))
}

// What the checker says, as a number.
fn check_number(r: Result<bool, Refusal>) -> u64
    ensures { result ≡ check_number (check_reply r) }
{
    match r {
        Ok(true) => 1,
        Ok(false) => 0,
        Err(e) => refusal(e.number(), 0),
    }
}

// Checks a chain; value: 1 for yes, 0 for no.
#[unsafe(no_mangle)]
pub extern "C" fn chains_check(
    rec: &[u8],
    pat: &[u8],
    from: u16,
    to: u16,
    chain: &[u16],
    work: &mut [u32],
) -> u64
    ensures reply { result ≡ check_number (told (check_of rec.now pat.now from to chain.now plain (length work.old))) }
    ensures workspace { work.new ≡ work_after (ask_request rec.now pat.now from to plain (length work.old)) work.old }
    ensures membership { Membership rec.now pat.now from to chain.now plain result }
{
    check_number(checker::check_chain(rec, pat, from, to, chain, work))
}

// The same with options: a list of words, the opening and the closing second of the kinds 1 to 15 in turn.
#[unsafe(no_mangle)]
pub extern "C" fn chains_check_with(
    rec: &[u8],
    pat: &[u8],
    from: u16,
    to: u16,
    chain: &[u16],
    options: &[u32],
    work: &mut [u32],
) -> u64
    ensures reply { result ≡ check_number (told (check_of rec.now pat.now from to chain.now (options_of options.now) (length work.old))) }
    ensures workspace { work.new ≡ work_after (ask_request rec.now pat.now from to (options_of options.now) (length work.old)) work.old }
    ensures membership { Membership rec.now pat.now from to chain.now (options_of options.now) result }
{
    check_number(checker::check_chain_with(
        rec,
        pat,
        from,
        to,
        chain,
        windows::options_of(options),
        work,
    ))
}

// What the finder says, as a number.
fn find_number(r: Result<Option<usize>, OutputError>) -> u64
    requires { SaidFits (find_reply r) }
    ensures { result ≡ find_number (find_reply r) }
{
    match r {
        Ok(Some(n)) => n as u64,
        Ok(None) => 4294967295,
        Err(e) => refusal(e.number(), e.second()),
    }
}

// Finds the first shortest chain; value: its length, the chain standing at the front of the output, or 4,294,967,295 for none.
#[unsafe(no_mangle)]
pub extern "C" fn chains_find(
    rec: &[u8],
    pat: &[u8],
    from: u16,
    to: u16,
    work: &mut [u32],
    out: &mut [u16],
) -> u64
    ensures reply { result ≡ find_number (said (find_of rec.now pat.now from to plain (length work.old) (length out.old))) }
    ensures workspace { work.new ≡ work_after (ask_request rec.now pat.now from to plain (length work.old)) work.old }
    ensures output { out.new ≡ out_after (find_of rec.now pat.now from to plain (length work.old) (length out.old)) out.old }
    ensures first_shortest { FirstShortest rec.now pat.now from to plain (length out.old) result out.new }
{
    find_number(finder::find(rec, pat, from, to, work, out))
}

// The same with options.
#[unsafe(no_mangle)]
pub extern "C" fn chains_find_with(
    rec: &[u8],
    pat: &[u8],
    from: u16,
    to: u16,
    options: &[u32],
    work: &mut [u32],
    out: &mut [u16],
) -> u64
    ensures reply { result ≡ find_number (said (find_of rec.now pat.now from to (options_of options.now) (length work.old) (length out.old))) }
    ensures workspace { work.new ≡ work_after (ask_request rec.now pat.now from to (options_of options.now) (length work.old)) work.old }
    ensures output { out.new ≡ out_after (find_of rec.now pat.now from to (options_of options.now) (length work.old) (length out.old)) out.old }
    ensures first_shortest { FirstShortest rec.now pat.now from to (options_of options.now) (length out.old) result out.new }
{
    find_number(finder::find_with(rec, pat, from, to, windows::options_of(options), work, out))
}

// ---- all starts in one go

// A count in 32 bits: 4,294,967,295 where it is more.
fn in_32_bits(n: usize) -> usize
    ensures { (result ≡ counted n) × (result < 4294967296) }
{
    n.min(4294967295)
}

// What is said of all starts, as a number.
fn starts_number(r: Result<usize, OutputError>) -> u64
    ensures { result ≡ starts_number (OfStarts.starts_reply r) }
{
    match r {
        Ok(n) => in_32_bits(n) as u64,
        Err(e) => refusal(e.number(), in_32_bits(e.second())),
    }
}

// Finds the lengths of the first shortest chains from each listed place to one finishing place, 4,294,967,295 where there is none; value: how
// many were written.
#[unsafe(no_mangle)]
pub extern "C" fn chains_starts(
    rec: &[u8],
    pat: &[u8],
    listed: &[u16],
    to: u16,
    work: &mut [u32],
    lengths: &mut [u32],
) -> u64
    ensures reply { result ≡ starts_number (OfStarts.told (OfStarts.starts_of rec.now pat.now listed.now to plain (length work.old) (length lengths.old))) }
    ensures workspace { work.new ≡ work_after (ask_starts rec.now pat.now listed.now to plain (length work.old)) work.old }
    ensures words { lengths.new ≡ OfStarts.lengths_after (OfStarts.starts_of rec.now pat.now listed.now to plain (length work.old) (length lengths.old)) lengths.old }
    ensures shortest { EachShortest rec.now pat.now listed.now to plain result lengths.new }
{
    starts_number(starts::all_starts(rec, pat, listed, to, work, lengths))
}

// The same with options.
#[unsafe(no_mangle)]
pub extern "C" fn chains_starts_with(
    rec: &[u8],
    pat: &[u8],
    listed: &[u16],
    to: u16,
    options: &[u32],
    work: &mut [u32],
    lengths: &mut [u32],
) -> u64
    ensures reply { result ≡ starts_number (OfStarts.told (OfStarts.starts_of rec.now pat.now listed.now to (options_of options.now) (length work.old) (length lengths.old))) }
    ensures workspace { work.new ≡ work_after (ask_starts rec.now pat.now listed.now to (options_of options.now) (length work.old)) work.old }
    ensures words { lengths.new ≡ OfStarts.lengths_after (OfStarts.starts_of rec.now pat.now listed.now to (options_of options.now) (length work.old) (length lengths.old)) lengths.old }
    ensures shortest { EachShortest rec.now pat.now listed.now to (options_of options.now) result lengths.new }
{
    starts_number(starts::all_starts_with(
        rec,
        pat,
        listed,
        to,
        windows::options_of(options),
        work,
        lengths,
    ))
}

// ---- a search under way

// How many words of work area a search that is begun needs; value: the words.
#[unsafe(no_mangle)]
pub extern "C" fn chains_search_words(rec: &[u8], pat: &[u8]) -> u64
    ensures { result ≡ number_of (told (search_words_of rec.now pat.now)) }
{
    write_number(request::search_words(rec, pat))
}

// What begin says, as a number.
fn begin_number(r: Result<(), Refusal>) -> u64
    ensures { result ≡ number_of (begin_reply r) }
{
    match r {
        Ok(()) => 0,
        Err(e) => refusal(e.number(), 0),
    }
}

// Begins a search, which the work area holds from then on; value: 0.
#[unsafe(no_mangle)]
pub extern "C" fn chains_search_begin(
    rec: &[u8],
    pat: &[u8],
    from: u16,
    to: u16,
    work: &mut [u32],
) -> u64
    ensures reply { result ≡ number_of (begun_told (ask_search rec.now pat.now from to plain (length work.old))) }
    ensures workspace { work.new ≡ begun_after (ask_search rec.now pat.now from to plain (length work.old)) pat.now from to work.old }
{
    begin_number(searching::begin_search(rec, pat, from, to, work))
}

// The same with options.
#[unsafe(no_mangle)]
pub extern "C" fn chains_search_begin_with(
    rec: &[u8],
    pat: &[u8],
    from: u16,
    to: u16,
    options: &[u32],
    work: &mut [u32],
) -> u64
    ensures reply { result ≡ number_of (begun_told (ask_search rec.now pat.now from to (options_of options.now) (length work.old))) }
    ensures workspace { work.new ≡ begun_after (ask_search rec.now pat.now from to (options_of options.now) (length work.old)) pat.now from to work.old }
{
    begin_number(searching::begin_search_with(
        rec,
        pat,
        from,
        to,
        windows::options_of(options),
        work,
    ))
}

// Moves the search that the work area holds on by an amount of states; value: how many were taken up.
#[unsafe(no_mangle)]
pub extern "C" fn chains_search_move(work: &mut [u32], amount: usize) -> u64
    ensures { MovingNumber amount work.old result work.new }
{
    write_number(searching::move_search(work, amount))
}

// Finishes the search that the work area holds; value: as chains_find.
#[unsafe(no_mangle)]
pub extern "C" fn chains_search_finish(work: &mut [u32], out: &mut [u16]) -> u64
    ensures { FinishingNumber work.old out.old result work.new out.new }
{
    find_number(searching::finish_search(work, out))
}
