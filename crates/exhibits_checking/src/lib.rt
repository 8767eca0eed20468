// The command of the program exhibits that says whether an index and a log belong together.
#![tactic(auto)]

use exhibits_says::Job;
use exhibits_walks::entries::Entries;
use index::Entry;
use std::io;
use std::io::{Read, Seek, Write};
use std::rt::Files;

// How many exhibits are a line of the log, and how many are none.
#[derive(Clone, Copy, Default)]
struct Checked {
    right: u64,
    wrong: u64,
}

impl Checked {
    // Looks whether an exhibit is a line of the log. The first ten that are none are named.
    fn look<R, E: Write, L: Read + Seek>(
        &mut self,
        job: &mut Job<R, E>,
        log: &mut L,
        e: Entry,
    ) -> io::Result<()> {
        let mut line = [0u8; 82];
        if exhibits_walks::lines::at_entry(log, &mut line, e)?.is_some() {
            self.right = self.right.saturating_add(1);
            return Ok(());
        }
        if self.wrong < 10 {
            job.no_line(e.number);
        }
        self.wrong = self.wrong.saturating_add(1);
        Ok(())
    }

    // Says how many exhibits are no line of the log.
    fn say_wrong<R, E: Write>(self, job: &mut Job<R, E>) {
        let all = self.right.saturating_add(self.wrong);
        exhibits_says::counted(&mut job.err, b"exhibits: ", self.wrong, b" of the ");
        exhibits_says::counted(&mut job.err, b"", all, b" exhibits of ");
        exhibits_says::bytes(&mut job.err, job.index);
        exhibits_says::bytes(&mut job.err, b" are no line of ");
        exhibits_says::bytes(&mut job.err, job.log);
        exhibits_says::bytes(&mut job.err, b"\n");
    }

    // Says what all exhibits came to.
    fn tell<R, E: Write, W: Write>(self, job: &mut Job<R, E>, to: &mut W) {
        if 0 < self.wrong {
            return self.say_wrong(job);
        }
        let counted = write!(to, "{}", self.right);
        let told = to.write_all(b" exhibits, each is a line of this log\n");
        if let Err(e) = told.and(counted) {
            exhibits_says::no_output(&mut job.err, e);
        }
    }
}

// Looks at each exhibit of the index, and answers whether all could be read; else that is said.
fn check_entries<R, E: Write, F: Read, L: Read + Seek>(
    job: &mut Job<R, E>,
    entries: &mut Entries<F>,
    log: &mut L,
) -> Option<Checked> {
    let mut checked = Checked::default();
    for _ in 0..u64::MAX {
        match entries.next_entry() {
            Ok(Some(e)) => {
                if let Err(why) = checked.look(job, log, e) {
                    job.unread_log(why);
                    return None;
                }
            }
            Ok(None) => return Some(checked),
            Err(why) => {
                job.unread_index(why);
                return None;
            }
        }
    }
    None
}

// Says whether every exhibit of the index is a line that the finder gives out in the log, and else which is not.
pub fn check<R: Files, E: Write, W: Write>(job: &mut Job<R, E>, to: &mut W) {
    let Some(mut entries) = job.whole_index() else {
        return;
    };
    let Some(mut log) = job.open_log() else {
        return;
    };
    if let Some(checked) = check_entries(job, &mut entries, &mut log) {
        checked.tell(job, to);
    }
}
