//! A second program over the events of a session: the table of a release handler, written by hand.
use std::alloc::{AllocError, Global};
use text_cases::{Answer, first_word};

/// What a session answers that boots a disk without a node, and asks for its parts.
const NO_NODE: &str = "error boot 1 NotAStore
error handler 18 Dead
error handler 18 Dead
error handler 18 Dead
error handler 18 Dead
";

/// What a node does with a release.
#[derive(Clone, Copy, PartialEq, Eq)]
enum Status {
    Unpacked,
    Current,
    OneShot,
    Permanent,
    Old,
}

impl Status {
    fn text(self) -> &'static str {
        match self {
            Status::Unpacked => "unpacked",
            Status::Current => "current",
            Status::OneShot => "one_shot",
            Status::Permanent => "permanent",
            Status::Old => "old",
        }
    }
}

#[derive(Clone, Copy)]
struct Entry<'s> {
    vsn: &'s str,
    status: Status,
}

/// The releases of a node, in order of coming. All have the name `ch_rel`; the releases A and N have ch_app-1, and every other one has
/// ch_app-2.
#[derive(Drop)]
pub(crate) struct ReleaseTable<'s> {
    entries: Vec<Entry<'s>>,
}

impl<'s> ReleaseTable<'s> {
    pub(crate) fn new(alloc: Global) -> ReleaseTable<'s> {
        ReleaseTable {
            entries: Vec::new(alloc),
        }
    }

    /// Changes the releases as a command does that was answered `ok`, up to its own boot, if it has one. An installation that
    /// `restarts` asks for a restart.
    pub(crate) fn accept(&mut self, command: &'s str, restarts: bool) -> Result<(), AllocError> {
        let (name, rest) = first_word(command);
        match name {
            "create" => self.add(version_in(rest), Status::Permanent),
            "set_unpacked" => self.add(version_in(rest), Status::Unpacked),
            _ => {
                self.change(name, rest, restarts);
                Ok(())
            }
        }
    }

    fn add(&mut self, vsn: &'s str, status: Status) -> Result<(), AllocError> {
        self.entries.push(Entry { vsn, status })?;
        Ok(())
    }

    fn change(&mut self, name: &str, vsn: &str, restarts: bool) {
        match name {
            "install" if restarts => self.install(vsn, Status::OneShot),
            "install" => self.install(vsn, Status::Current),
            "permanent" | "reboot_old" => self.make_permanent(vsn),
            "remove" => self.entries.retain(|entry| entry.vsn != vsn),
            "boot" => self.boot(),
            _ => {}
        }
    }

    // A release that was current becomes old. The permanent release stays so when it is installed.
    fn install(&mut self, vsn: &str, status: Status) {
        for entry in self.entries.iter_mut() {
            if entry.status == Status::Current {
                entry.status = Status::Old;
            }
            if entry.vsn == vsn && entry.status != Status::Permanent {
                entry.status = status;
            }
        }
    }

    fn make_permanent(&mut self, vsn: &str) {
        for entry in self.entries.iter_mut() {
            if entry.status == Status::Permanent {
                entry.status = Status::Old;
            }
            if entry.vsn == vsn {
                entry.status = Status::Permanent;
            }
        }
    }

    /// Boots the node: a one-shot becomes current; without one, a current release becomes unpacked.
    pub(crate) fn boot(&mut self) {
        let has_one_shot = self.with_status(Status::OneShot).is_some();
        for entry in self.entries.iter_mut() {
            if entry.status == Status::OneShot {
                entry.status = Status::Current;
            } else if entry.status == Status::Current && !has_one_shot {
                entry.status = Status::Unpacked;
            }
        }
    }

    fn with_status(&self, status: Status) -> Option<&'s str> {
        for entry in self.entries.iter() {
            if entry.status == status {
                return Some(entry.vsn);
            }
        }
        None
    }

    /// What a session answers that boots this node, and asks for the releases, the start record, the processes and the modules.
    pub(crate) fn report_of_boot(&self, alloc: Global) -> Result<String, AllocError> {
        let mut booted = ReleaseTable {
            entries: Vec::from_slice(alloc, &self.entries)?,
        };
        booted.boot();
        let mut answer = Answer::new(alloc);
        match booted.with_status(Status::Permanent) {
            Some(permanent) => booted.push_report(permanent, &mut answer),
            None => answer.push(NO_NODE),
        }
        answer.finish()
    }

    // The lines of a node that has booted, of which this release is permanent.
    fn push_report(&self, permanent: &str, answer: &mut Answer) {
        let running = self.with_status(Status::Current).unwrap_or(permanent);
        push_line("ok ", running, "", answer);
        for entry in self.entries.iter() {
            entry.push(answer);
        }
        answer.push_counted("ok ", self.entries.len() as u64);
        answer.push("\n");
        push_line("ok 14.2 ", permanent, "", answer);
        push_running(application_of(running), answer);
    }
}

impl Entry<'_> {
    // Its line in the list of releases.
    fn push(&self, answer: &mut Answer) {
        answer.push_after("{\"ch_rel\",\"", self.vsn);
        answer.push_after("\",[\"ch_app-", application_of(self.vsn));
        push_line("\"],", self.status.text(), "}", answer);
    }
}

// The processes and the modules of ch_app in this version. The module of its first process has the version of the application.
fn push_running(application: &str, answer: &mut Answer) {
    push_line("{ch_app,ch3,ch3,\"", application, "\",up}", answer);
    answer.push("{ch_app,aux,aux,\"1\",up}\nok 2\n{aux,\"1\"}\n");
    push_line("{ch3,\"", application, "\"}", answer);
    answer.push("{ch_sup,\"1\"}\nok 3\n");
}

// A line of three parts.
fn push_line(before: &str, text: &str, after: &str, answer: &mut Answer) {
    answer.push_after(before, text);
    answer.push_after(after, "\n");
}

// The version in `releases/VSN/ch_rel.rel`.
fn version_in(path: &str) -> &str {
    path.split('/').nth(1).unwrap_or("")
}

// The version of ch_app in this release.
fn application_of(vsn: &str) -> &'static str {
    if vsn == "A" || vsn == "N" { "1" } else { "2" }
}
