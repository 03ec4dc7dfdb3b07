// Tries the examples of document 01 that carry no star, some of document 02, and random cases with the independent engine's results: for each group prints how many cases had which reply, and how many differ from the engine's.
// Of each case: reaching, asking by rows and by text, and replaying, with buffers of the length asked or a little longer; the three C functions; reaching and asking with a buffer that is one number too short.
// All of each reply is compared, and all of each lent buffer; the number of registers that a no gives with the table's.
#![tactic(auto)]

use checker::{Asking, Reaching, Refusal, Verdict};
use std::io;
use std::io::Read;
use std::rt::Files;
use trial::{FILL, FILL16, START};

// A case's header: 25 fields (the engine's src/trials/random.rs says what they are). Reaching has fields 5 to 12, asking by rows 13 to 16 and by text 17 to 20, replaying 21 to 24.
const HEADER: usize = 425;

const BY_ROWS: usize = 13;

const BY_TEXT: usize = 17;

// What a call gave: its reply (0 reached, yes or good; 1 never, no or bad; 2 refused), and whether all of it is as expected.
#[derive(Clone, Copy)]
struct Outcome {
    reply: usize,
    same: bool,
}

fn came(reply: usize, same: bool) -> Outcome {
    Outcome { reply, same }
}

// Whether a refusal is the one that stands in the header from this field on.
fn same_refusal(header: &[u8], from: usize, r: Refusal) -> bool {
    trial::tells(
        header,
        from,
        &[2, r.number as u64, r.file as u64, r.line as u64],
    )
}

// The code that the header's reply from this field on has for C: 0, 1, or 100 plus the refusal's number.
fn code(header: &[u8], from: usize) -> u64 {
    let reply = trial::field(header, from);
    if reply < 2 {
        return reply;
    }
    std::num::wrapping_add_u64(
        100,
        trial::field(header, std::num::wrapping_add_usize(from, 1)),
    )
}

// Is it refusal 9?
fn is_nine(r: Refusal) -> bool {
    (r.number == 9) & (r.file == 0) & (r.line == 0)
}

// Whether reaching left its buffers alone from these places on.
fn kept(
    words: &[u32; 340],
    least: &[u16; 10790],
    links: &[u16; 10790],
    run: &[u32; 97070],
    lines: &[u32; 129430],
    w: usize,
    l: usize,
    r: usize,
    m: usize,
) -> bool {
    trial::kept(words, w)
        & trial::kept(least, l)
        & trial::kept(links, l)
        & trial::kept(run, r)
        & trial::kept(lines, m)
}

// Reaching. Buffer `short` of the five is too short; the others have the length asked or a little more.
fn reach_over(
    table: &[u8],
    target: &[u8],
    words: &mut [u32],
    least: &mut [u16],
    links: &mut [u16],
    run: &mut [u32],
    lines: &mut [u32],
    short: u32,
    over: u32,
) -> Result<Reaching, Refusal> {
    checker::reach(
        table,
        target,
        trial::lend_near(words, 337, short == 0, over),
        trial::lend_near(least, 10784, short == 1, over),
        trial::lend_near(links, 10784, short == 2, over),
        trial::lend_near(run, 97061, short == 3, over),
        trial::lend_near(lines, 129420, short == 4, over),
    )
}

// Whether reply, steps, reached configurations, their number, least steps and links are as expected.
fn same_sets(
    header: &[u8],
    reply: u64,
    steps: usize,
    reached: u32,
    words: &[u32; 340],
    least: &[u16; 10790],
    links: &[u16; 10790],
) -> bool {
    let w = trial::digest(START, trial::front(words, 337));
    let l = trial::digest(START, trial::front(least, 10784));
    let k = trial::digest(START, trial::front(links, 10784));
    trial::tells(header, 5, &[reply, steps as u64, reached as u64, w, l, k])
}

// Whether run and printed moments are as expected, and the replayer calls the run good.
fn same_run(
    header: &[u8],
    table: &[u8],
    n: usize,
    run: &[u32; 97070],
    m: usize,
    lines: &[u32; 129430],
) -> bool {
    let played = trial::front(run, n);
    let shown = trial::front(lines, m);
    trial::tells(
        header,
        11,
        &[trial::digest(START, played), trial::digest(START, shown)],
    ) & matches!(checker::replay(table, played), Ok(Verdict::Good))
}

// Whether reply and buffers of reaching are as expected.
fn judge_reach(
    table: &[u8],
    header: &[u8],
    reply: Result<Reaching, Refusal>,
    words: &[u32; 340],
    least: &[u16; 10790],
    links: &[u16; 10790],
    run: &[u32; 97070],
    lines: &[u32; 129430],
) -> Outcome {
    match reply {
        Ok(Reaching::Never { reached }) => came(
            1,
            same_sets(header, 0, 0, reached, words, least, links)
                & trial::tells(header, 11, &[0, 0])
                & kept(words, least, links, run, lines, 337, 10784, 0, 0),
        ),
        Ok(Reaching::Reached { steps, reached }) => {
            let n = 5 + 9 * (steps % 10785);
            let m = 12 * (steps % 10785 + 1);
            came(
                0,
                same_sets(header, 1, steps, reached, words, least, links)
                    & same_run(header, table, n, run, m, lines)
                    & kept(words, least, links, run, lines, 337, 10784, n, m),
            )
        }
        Err(r) => came(
            2,
            same_refusal(header, 5, r) & kept(words, least, links, run, lines, 0, 0, 0, 0),
        ),
    }
}

// Whether the reply is refusal 9, whatever the files are, and nothing is written.
fn judge_short(
    reply: Result<Reaching, Refusal>,
    words: &[u32; 340],
    least: &[u16; 10790],
    links: &[u16; 10790],
    run: &[u32; 97070],
    lines: &[u32; 129430],
) -> bool {
    match reply {
        Err(r) => { is_nine(r) & kept(words, least, links, run, lines, 0, 0, 0, 0) }
        Ok(_) => false,
    }
}

// Reaching with a buffer that is too short.
fn short_reach(table: &[u8], target: &[u8], case: u32) -> bool {
    let mut words = [FILL; 340];
    let mut least = [FILL16; 10790];
    let mut links = [FILL16; 10790];
    let mut run = [FILL; 97070];
    let mut lines = [FILL; 129430];
    let reply = reach_over(
        table,
        target,
        &mut words,
        &mut least,
        &mut links,
        &mut run,
        &mut lines,
        case % 5,
        case,
    );
    judge_short(reply, &words, &least, &links, &run, &lines)
}

// Reaching with buffers that are long enough.
fn try_reach(table: &[u8], target: &[u8], header: &[u8], case: u32) -> Outcome {
    let mut words = [FILL; 340];
    let mut least = [FILL16; 10790];
    let mut links = [FILL16; 10790];
    let mut run = [FILL; 97070];
    let mut lines = [FILL; 129430];
    let reply = reach_over(
        table, target, &mut words, &mut least, &mut links, &mut run, &mut lines, 5, case,
    );
    judge_reach(table, header, reply, &words, &least, &links, &run, &lines)
}

// Whether asking left its buffers alone, the rows from this place on.
fn kept_rows(rows: &[u32; 10790], from: usize, contents: &[u32; 5]) -> bool {
    trial::kept(rows, from) & trial::kept(contents, 0)
}

// Whether the rows are those of the header's reply from this field on, and what is behind them is kept.
fn same_rows(header: &[u8], from: usize, rows: &[u32; 10790]) -> bool {
    trial::tells(
        header,
        std::num::wrapping_add_usize(from, 3),
        &[trial::digest(START, trial::front(rows, 10784))],
    ) & trial::kept(rows, 10784)
}

// The registers of a table that is read: the digit that ends the second field of its first line.
fn registers_of(table: &[u8]) -> u64 {
    trial::hex(trial::front(trial::behind(table, 11), 1))
}

// Whether class, contents and registers of a no are as expected.
fn same_no(
    table: &[u8],
    header: &[u8],
    from: usize,
    class: usize,
    registers: usize,
    contents: &[u32; 5],
) -> bool {
    trial::tells(
        header,
        from,
        &[0, class as u64, trial::digest(START, contents)],
    ) & (registers as u64 == registers_of(table))
}

// Whether reply and buffers of asking are as the header has them from this field on.
fn judge_ask(
    table: &[u8],
    header: &[u8],
    from: usize,
    reply: Result<Asking, Refusal>,
    rows: &[u32; 10790],
    contents: &[u32; 5],
) -> Outcome {
    match reply {
        Ok(Asking::Yes) => came(
            0,
            trial::tells(header, from, &[1, 0, 0])
                & same_rows(header, from, rows)
                & kept_rows(rows, 10784, contents),
        ),
        Ok(Asking::No { class, registers }) => came(
            1,
            same_no(table, header, from, class, registers, contents)
                & same_rows(header, from, rows),
        ),
        Err(r) => came(
            2,
            same_refusal(header, from, r) & kept_rows(rows, 0, contents),
        ),
    }
}

// Whether the reply is refusal 9, and nothing is written.
fn judge_short_ask(
    reply: Result<Asking, Refusal>,
    rows: &[u32; 10790],
    contents: &[u32; 5],
) -> bool {
    match reply {
        Err(r) => is_nine(r) & kept_rows(rows, 0, contents),
        Ok(_) => false,
    }
}

// Asking by rows or by text, as the header's field says.
fn ask_over(
    table: &[u8],
    question: &[u8],
    from: usize,
    rows: &mut [u32],
    contents: &mut [u32; 5],
) -> Result<Asking, Refusal> {
    if from == BY_TEXT {
        return checker::ask_text(table, question, rows, contents);
    }
    checker::ask(table, question, rows, contents)
}

// Asking with a buffer that is too short.
fn short_ask(table: &[u8], question: &[u8], from: usize) -> bool {
    let mut rows = [FILL; 10790];
    let mut contents = [FILL; 5];
    let lent = trial::lend_near(&mut rows, 10784, true, 0);
    let reply = ask_over(table, question, from, lent, &mut contents);
    judge_short_ask(reply, &rows, &contents)
}

// Asking with a buffer that is long enough.
fn try_ask(table: &[u8], question: &[u8], header: &[u8], from: usize, case: u32) -> Outcome {
    let mut rows = [FILL; 10790];
    let mut contents = [FILL; 5];
    let lent = trial::lend_near(&mut rows, 10784, false, case);
    let reply = ask_over(table, question, from, lent, &mut contents);
    judge_ask(table, header, from, reply, &rows, &contents)
}

// Replaying a list.
fn try_replay(table: &[u8], list: &[u32], header: &[u8]) -> Outcome {
    match checker::replay(table, list) {
        Ok(Verdict::Good) => came(0, trial::tells(header, 21, &[1, 0, 0, 0])),
        Ok(Verdict::Bad(moment)) => came(1, trial::tells(header, 21, &[0, moment as u64, 0, 0])),
        Err(r) => came(2, same_refusal(header, 21, r)),
    }
}

// Whether the C functions give the codes of the header's replies.
fn same_codes(table: &[u8], target: &[u8], question: &[u8], text: &[u8], header: &[u8]) -> bool {
    let reached = checker::maceplateau_reach(table, target);
    let asked = checker::maceplateau_ask(table, question);
    let by_text = checker::maceplateau_ask_text(table, text);
    (reached as u64 == code(header, 5))
        & (asked as u64 == code(header, BY_ROWS))
        & (by_text as u64 == code(header, BY_TEXT))
}

fn flag(yes: bool) -> u32 {
    if yes { 1 } else { 0 }
}

// Names a case that differs, with 1 for each of reaching, asking by rows and by text, replaying, the C functions and short buffers that does.
fn name_case(
    rt: &impl Print,
    case: u32,
    reach: bool,
    ask: bool,
    by_text: bool,
    replay: bool,
    codes: bool,
    short: bool,
) -> io::Result<()> {
    trial::show(
        rt,
        b"differs ",
        &[
            case,
            flag(!reach),
            flag(!ask),
            flag(!by_text),
            flag(!replay),
            flag(!codes),
            flag(!short),
        ],
    )
}

// Counts the replies of a case.
fn count_replies(counts: &mut [u32], reach: usize, ask: usize, by_text: usize, replay: usize) {
    trial::add(counts, 0, 1);
    trial::add(counts, std::num::wrapping_add_usize(1, reach), 1);
    trial::add(counts, std::num::wrapping_add_usize(4, ask), 1);
    trial::add(counts, std::num::wrapping_add_usize(7, by_text), 1);
    trial::add(counts, std::num::wrapping_add_usize(10, replay), 1);
}

// Counts a case.
fn count(
    rt: &impl Print,
    counts: &mut [u32],
    case: u32,
    reach: Outcome,
    ask: Outcome,
    by_text: Outcome,
    replay: Outcome,
    codes: bool,
    short: bool,
) -> io::Result<()> {
    count_replies(counts, reach.reply, ask.reply, by_text.reply, replay.reply);
    if reach.same & ask.same & by_text.same & replay.same & codes & short {
        return Ok(());
    }
    trial::add(counts, 13, 1);
    name_case(
        rt,
        case,
        reach.same,
        ask.same,
        by_text.same,
        replay.same,
        codes,
        short,
    )
}

// One case: each call is tried.
fn try_calls(
    rt: &impl Print,
    table: &[u8],
    target: &[u8],
    question: &[u8],
    text: &[u8],
    list: &[u32],
    header: &[u8],
    counts: &mut [u32],
    case: u32,
) -> io::Result<()> {
    let reach = try_reach(table, target, header, case);
    let ask = try_ask(table, question, header, BY_ROWS, case);
    let by_text = try_ask(table, text, header, BY_TEXT, case);
    let replay = try_replay(table, list, header);
    let codes = same_codes(table, target, question, text, header);
    let short = short_reach(table, target, case)
        & short_ask(table, question, BY_ROWS)
        & short_ask(table, text, BY_TEXT);
    count(rt, counts, case, reach, ask, by_text, replay, codes, short)
}

// One case after its header: its files and its list are read one after the other.
fn try_case<F: Read>(
    rt: &impl Print,
    file: &mut F,
    header: &[u8; 425],
    counts: &mut [u32],
    case: u32,
) -> io::Result<()> {
    let mut table = [0u8; 41000];
    let mut target = [0u8; 1100];
    let mut question = [0u8; 1100];
    let mut text = [0u8; 1100];
    let mut list = [0u32; 2048];
    let t = trial::take(file, &mut table, trial::field(header, 0));
    let g = trial::take(file, &mut target, trial::field(header, 1));
    let q = trial::take(file, &mut question, trial::field(header, 2));
    let x = trial::take(file, &mut text, trial::field(header, 3));
    let n = trial::take_numbers(file, trial::field(header, 4), &mut list);
    try_calls(
        rt,
        trial::front(&table, t),
        trial::front(&target, g),
        trial::front(&question, q),
        trial::front(&text, x),
        trial::front(&list, n),
        header,
        counts,
        case,
    )
}

// The next case, if there is one.
fn next_case<F: Read>(
    rt: &impl Print,
    file: &mut F,
    counts: &mut [u32],
    case: u32,
) -> io::Result<bool> {
    let mut header = [b'0'; 425];
    if trial::read_full(file, &mut header) < HEADER {
        return Ok(false);
    }
    try_case(rt, file, &header, counts, case)?;
    Ok(true)
}

// A group: its file has its name.
fn group<R: Files + Print>(rt: &R, path: &[u8], name: &[u8]) -> io::Result<()> {
    let mut counts = [0u32; 14];
    if let Some(mut file) = trial::open(rt, path) {
        trial::each_case(|case| next_case(rt, &mut file, &mut counts, case))?;
    }
    trial::show(rt, name, &counts)
}

fn main(rt: HostRuntime) -> io::Result<()> {
    rt.write_all(
        b"group      cases reached   never refused     yes      no refused     yes      no refused    good     bad refused  differ\n",
    )?;
    group(&rt, b"examples", b"examples")?;
    group(&rt, b"tiny", b"tiny    ")?;
    group(&rt, b"small", b"small   ")?;
    group(&rt, b"large", b"large   ")?;
    group(&rt, b"long", b"long    ")?;
    group(&rt, b"full", b"full    ")?;
    group(&rt, b"damaged", b"damaged ")
}
