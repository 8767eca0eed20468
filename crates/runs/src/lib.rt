// Runs of satellite lines: the lines of a log that are taken together before it is asked whether they are a group.
#![tactic(auto)]

ghost use Rattle.std.specs.Prelude.{◌≡◌};
ghost use Rattle.sentence.specs.Lines.{read_line};
ghost use Rattle.runs.specs.Runs.{says_of};
ghost use Rattle.runs.specs.Step.{joined_to, none_open, run_for, step_of};

// What a line that reads as GSV says: its number, and the number of the last line that it announces.
#[derive(Clone, Copy)]
pub struct Says {
    pub number: u32,
    pub last: u32,
}

// The open run: how many lines it has, 0 where none is open, and the number that its first line announced as last. A host of C
// keeps both numbers, so that none open is no Option.
#[derive(Clone, Copy)]
pub struct Open {
    pub lines: u32,
    pub last: u32,
}

// What a line comes to: whether the open run ends before it, whether it stands in a run, whether that run ends with
// it, and what is open behind it.
#[derive(Clone, Copy)]
pub struct Stepped {
    pub before: bool,
    pub joins: bool,
    pub ends: bool,
    pub next: Open,
}

// Nothing where the line does not read as GSV.
fn said_by(line: &[u8]) -> Option<Says>
    ensures { result ≡ says_of (read_line line.now) }
{
    let mut n = [0i64; 33];
    let told = sentence::read(line, &mut n);
    if told.no != 0 || told.kind != 4 {
        return None;
    }
    let gsv = kind_gsv::at(&n);
    Some(Says {
        number: gsv.line,
        last: gsv.lines,
    })
}

fn none_open() -> Open
    ensures { result ≡ none_open }
{
    Open { lines: 0, last: 0 }
}

// The run that a line goes to, as it is before the line: the open one, or a new one where none is open or the line is
// numbered 1.
fn run_for(was: Open, number: u32, last: u32) -> Open
    ensures { result ≡ run_for was number last }
{
    if was.lines == 0 || number == 1 {
        return Open { lines: 0, last };
    }
    was
}

// A line put behind those of its run, which ends with the announced last and with the ninth.
fn joined(before: bool, run: Open, number: u32) -> Stepped
    ensures { result ≡ joined_to before run number }
{
    if number == run.last || 8 <= run.lines {
        return Stepped {
            before,
            joins: true,
            ends: true,
            next: none_open(),
        };
    }
    Stepped {
        before,
        joins: true,
        ends: false,
        next: Open {
            lines: run.lines + 1,
            last: run.last,
        },
    }
}

// The step of the cut, for the next line that was found; at the start none is open. Any bytes are a line here, and any
// numbers an open run. What is open where the lines end is a run too.
//
//     $GPGSV,2,1,05,02,10,104,33,05,60,017,47,12,33,201,40,25,04,310,*7A
pub fn step(was: Open, line: &[u8]) -> Stepped
    ensures { result ≡ step_of was (says_of (read_line line.now)) }
{
    let Some(said) = said_by(line) else {
        return Stepped {
            before: 0 < was.lines,
            joins: false,
            ends: false,
            next: none_open(),
        };
    };
    let before = 0 < was.lines && said.number == 1;
    joined(before, run_for(was, said.number, said.last), said.number)
}
