//! What is read of appups, as text.
use appup_file::{
    Appup, AppupEntry, AppupInstr, Dependent, ModType, ModuleLoad, OtherVersion, StateChange,
    Update,
};
use erl_term::print;
use rel_files::StartType;
use relup_instruction::{Instr, PurgeMode, Timeout, instruction_term};
use std::alloc::Global;
use text_cases::Answer;

/// Appends the version and the entries.
pub(crate) fn push_appup(appup: &Appup, answer: &mut Answer) {
    answer.push_after(&appup.vsn, ", up from [");
    push_entries(&appup.ups, answer);
    answer.push("], down to [");
    push_entries(&appup.downs, answer);
    answer.push("]");
}

fn push_entries(entries: &[AppupEntry], answer: &mut Answer) {
    let mut between = "";
    for entry in entries {
        answer.push(between);
        push_version(&entry.vsn, answer);
        answer.push_counted(": ", entry.instrs.len() as u64);
        between = ", ";
    }
}

fn push_version(vsn: &OtherVersion, answer: &mut Answer) {
    match vsn {
        OtherVersion::Text(vsn) => answer.push(vsn.as_str()),
        OtherVersion::Pattern(bytes) => {
            answer.push_after(
                "pattern ",
                str::from_utf8(bytes).unwrap_or("of other bytes"),
            );
        }
    }
}

/// Appends the instructions one after another.
pub(crate) fn push_instrs(alloc: Global, instrs: &[AppupInstr], answer: &mut Answer) {
    let mut between = "";
    for instr in instrs {
        answer.push(between);
        push_instr(alloc, instr, answer);
        between = "; ";
    }
}

fn push_instr(alloc: Global, instr: &AppupInstr, answer: &mut Answer) {
    match instr {
        AppupInstr::Update(update) => push_update(alloc, update, answer),
        AppupInstr::LoadModule(load) => push_load(load, answer),
        AppupInstr::AddModule(dependent) => push_dependent("add ", dependent, answer),
        AppupInstr::DeleteModule(dependent) => push_dependent("delete ", dependent, answer),
        AppupInstr::AddApplication(added) => {
            answer.push_after("add application ", &added.name);
            answer.push(start_word(added.start));
        }
        AppupInstr::RemoveApplication(name) => answer.push_after("remove application ", name),
        AppupInstr::RestartApplication(name) => answer.push_after("restart application ", name),
        AppupInstr::LowLevel(instr) => push_low_level(alloc, instr, answer),
    }
}

fn push_low_level(alloc: Global, instr: &Instr, answer: &mut Answer) {
    match instruction_term(alloc, instr) {
        Ok(term) => {
            answer.push("low-level ");
            answer.push_made(&print(alloc, &term));
        }
        Err(_) => answer.note_no_memory(),
    }
}

fn push_update(alloc: Global, update: &Update, answer: &mut Answer) {
    answer.push_after("update ", &update.name);
    answer.push(match update.mod_type {
        ModType::Static => " static ",
        ModType::Dynamic => " dynamic ",
    });
    push_timeout(update.timeout, answer);
    push_change(alloc, &update.change, answer);
    push_purge(update.pre, answer);
    push_purge(update.post, answer);
    push_names(&update.dep_mods, answer);
}

fn push_timeout(timeout: Timeout, answer: &mut Answer) {
    match timeout {
        Timeout::Default => answer.push("default"),
        Timeout::Infinity => answer.push("infinity"),
        Timeout::Milliseconds(n) => answer.push_shown(&n),
    }
}

fn push_change(alloc: Global, change: &StateChange, answer: &mut Answer) {
    match change {
        StateChange::Soft => answer.push(" soft"),
        StateChange::Advanced(extra) => {
            answer.push(" advanced ");
            answer.push_made(&print(alloc, extra));
        }
    }
}

fn push_purge(mode: PurgeMode, answer: &mut Answer) {
    answer.push(match mode {
        PurgeMode::Soft => " soft",
        PurgeMode::Brutal => " brutal",
    });
}

fn push_load(load: &ModuleLoad, answer: &mut Answer) {
    answer.push_after("load ", &load.name);
    push_purge(load.pre, answer);
    push_purge(load.post, answer);
    push_names(&load.dep_mods, answer);
}

fn push_dependent(word: &str, dependent: &Dependent, answer: &mut Answer) {
    answer.push_after(word, &dependent.name);
    push_names(&dependent.dep_mods, answer);
}

fn start_word(start: StartType) -> &'static str {
    match start {
        StartType::Permanent => " permanent",
        StartType::Transient => " transient",
        StartType::Temporary => " temporary",
        StartType::Load => " load",
        StartType::Unloaded => " none",
    }
}

// Appends names in brackets.
fn push_names(names: &[String], answer: &mut Answer) {
    answer.push(" [");
    let mut between = "";
    for name in names {
        answer.push_after(between, name);
        between = ",";
    }
    answer.push("]");
}
