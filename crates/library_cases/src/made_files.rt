//! The files of releases that are too long to be written down.
use text_cases::Answer;

/// A release of one application, whose top is the first of `depth` supervisors. Each has `width` children: all of them are
/// the supervisor after it, and those of the last are the worker `w`, whose file isn't among these.
pub(crate) fn push_tree(width: usize, depth: usize, files: &mut Answer) {
    files.push(BEGUN);
    for level in 0..depth {
        push_numbered("s", level, files);
        files.push(",");
    }
    files.push("w]},{mod,{s0,[]}}]}.\n");
    for level in 0..depth {
        push_supervisor(level, width, depth, files);
    }
}

/// A release of one application of this many modules, none of them with a table.
pub(crate) fn push_modules(count: usize, files: &mut Answer) {
    files.push(BEGUN);
    files.push("top");
    for i in 1..count {
        push_numbered(",m", i, files);
    }
    files.push("]}]}.\n");
}

/// The line of the worker's file, with this many rows.
pub(crate) fn push_worker(rows: usize, files: &mut Answer) {
    files.push("lib/a-1/ebin/w.mod {worker,w,\"1\",0,[{add,1,1}");
    for _ in 1..rows {
        files.push(",{add,1,1}");
    }
    files.push("]}.\n");
}

/// A release R without applications, and beside it a relup of this version with a script up and a script down, each of so
/// many instructions.
pub(crate) fn push_scripts(up: usize, down: usize, vsn: &str, files: &mut Answer) {
    files.push("r.rel {release,{\"r\",\"R\"},{erts,\"14.2\"},[]}.\n");
    files.push_after("relup {\"", vsn);
    files.push("\",[");
    push_script(up, files);
    files.push("],[");
    push_script(down, files);
    files.push("]}.\n");
}

// The entry of a script of this many instructions.
fn push_script(count: usize, files: &mut Answer) {
    files.push("{\"A\",[],[point_of_no_return");
    for _ in 1..count {
        files.push(",{purge,[]}");
    }
    files.push("]}");
}

// The file of the release, and that of its application up to the modules.
const BEGUN: &str = r#"r.rel {release,{"r","R"},{erts,"14.2"},[{a,"1"}]}.
lib/a-1/ebin/a.app {application,a,[{vsn,"1"},{modules,["#;

fn push_numbered(before: &str, number: usize, files: &mut Answer) {
    files.push(before);
    files.push_number(number as u64);
}

// The line of a supervisor's file.
fn push_supervisor(level: usize, width: usize, depth: usize, files: &mut Answer) {
    push_numbered("lib/a-1/ebin/s", level, files);
    push_numbered(".mod {supervisor,s", level, files);
    files.push(",\"1\",[");
    let mut before = "{c";
    for child in 0..width {
        push_numbered(before, level, files);
        push_numbered("_", child, files);
        push_module(level.saturating_add(1), depth, files);
        before = ",{c";
    }
    files.push("]}.\n");
}

// What follows the id of a child.
fn push_module(level: usize, depth: usize, files: &mut Answer) {
    if level < depth {
        push_numbered(",{s", level, files);
        push_numbered(",f,[]},permanent,1,supervisor,[s", level, files);
        files.push("]}");
    } else {
        files.push(",{w,f,[]},permanent,1,worker,[w]}");
    }
}
