// The exhibits of a log: an index beside it, which opens by exhibit number.
#![tactic(auto)]

use exhibits_says::Job;
use std::env::FillError;
use std::io;
use std::io::{Read, Write};
use std::rt::{Env, Files};

#[derive(Clone, Copy)]
enum Command {
    Make,
    All,
    Add,
    Show,
    Read,
    List,
    Check,
}

impl Command {
    // The command that a word names.
    fn named(word: &[u8]) -> Option<Command> {
        match word {
            b"make" => Some(Command::Make),
            b"all" => Some(Command::All),
            b"add" => Some(Command::Add),
            b"show" => Some(Command::Show),
            b"read" => Some(Command::Read),
            b"list" => Some(Command::List),
            b"check" => Some(Command::Check),
            _ => None,
        }
    }

    // How many words it has, the program's name among them.
    fn words(self) -> usize {
        match self {
            Command::List => 3,
            Command::Make | Command::All | Command::Check => 4,
            Command::Show | Command::Read => 5,
            Command::Add => 6,
        }
    }
}

// The numbers by which the system names a word that is missing, and one that is too long.
const EINVAL: i32 = 22;

const ENAMETOOLONG: i32 = 36;

// Why a word of the command cannot be taken.
fn untaken(why: FillError) -> io::Error {
    io::Error::from_raw_os_error(match why {
        FillError::NotPresent => EINVAL,
        FillError::TooLong => ENAMETOOLONG,
    })
}

// The number that a word of the command says; nothing where it says none, which is said.
fn number_at<R: Env, E: Write>(job: &mut Job<R, E>, i: usize) -> Option<u64> {
    let mut buf = [0u8; 4096];
    let word = match job.files.arg(i, &mut buf) {
        Ok(n) => &buf[..n],
        Err(why) => {
            turns::fail(
                &mut job.err,
                b"exhibits: a number cannot be taken",
                untaken(why),
            );
            return None;
        }
    };
    let parsed = exhibits_lists::parse(word);
    if parsed.is_none() {
        exhibits_says::named(
            &mut job.err,
            b"",
            word,
            b" is no number from 0 to 4294967295 in decimal digits, without a sign and needless zeros",
        );
    }
    parsed
}

fn add<R: Files + Env, E: Write>(job: &mut Job<R, E>) {
    let Some(exhibit) = number_at(job, 4) else {
        return;
    };
    let Some(line) = number_at(job, 5) else {
        return;
    };
    exhibits_adding::add(job, exhibit, line);
}

fn show<R: Files + Env, W: Write, E: Write>(job: &mut Job<R, E>, to: &mut W, fields: bool) {
    if let Some(exhibit) = number_at(job, 4) {
        exhibits_showing::show(job, to, exhibit, fields);
    }
}

// Carries out a command.
fn run<R: Files + Env, I: Read, W: Write, E: Write>(
    job: &mut Job<R, E>,
    from: &mut I,
    to: &mut W,
    command: Command,
) {
    match command {
        Command::Make => exhibits_renewing::make(job, from, true),
        Command::All => exhibits_renewing::make(job, from, false),
        Command::Add => add(job),
        Command::Show => show(job, to, false),
        Command::Read => show(job, to, true),
        Command::List => exhibits_showing::list(job, to),
        Command::Check => exhibits_checking::check(job, to),
    }
}

fn say_unnamed<E: Write>(err: &mut E, why: FillError) {
    turns::fail(err, b"exhibits: a file name cannot be taken", untaken(why));
}

// Takes the file names of a command, and carries it out.
fn start<R: Files + Env, I: Read, W: Write, E: Write + Drop>(
    rt: &R,
    from: &mut I,
    to: &mut W,
    err: E,
    command: Command,
) {
    let mut err = err;
    let mut first = [0u8; 4096];
    let a = match rt.arg(2, &mut first) {
        Ok(a) => a,
        Err(why) => return say_unnamed(&mut err, why),
    };
    let mut second = [0u8; 4096];
    let b = match rt.arg(3, &mut second) {
        Ok(b) => b,
        Err(FillError::NotPresent) => 0,
        Err(why) => return say_unnamed(&mut err, why),
    };
    let (log, index) = match command {
        Command::List => (&second[..b], &first[..a]),
        _ => (&first[..a], &second[..b]),
    };
    let mut job = Job {
        files: rt,
        err,
        log,
        index,
    };
    run(&mut job, from, to, command);
}

// The command that the first word names.
fn command_asked<V: Env>(env: &V) -> Option<Command> {
    let mut word = [0u8; 8];
    let n = env.arg(1, &mut word).ok()?;
    Command::named(&word[..n])
}

fn main(rt: HostRuntime) {
    let mut err = rt.stderr();
    match command_asked(&rt) {
        Some(command) if turns::arg_count(&rt) == command.words() => start(
            &rt,
            &mut rt.stdin(),
            &mut rt.stdout(),
            err,
            command,
        ),
        None if turns::arg_count(&rt) == 0 => say_unnamed(&mut err, FillError::NotPresent),
        _ => exhibits_says::usage(&mut err),
    }
}
