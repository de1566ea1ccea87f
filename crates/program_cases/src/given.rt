//! The files that many sessions give.

// The lines that give the files of a name, file by file.
//
// `a.rel`, `b.rel` and `c.rel` are each the file of a release, of version 1 or 2 of `ch_app`. `b.relup` and `c.relup` are the
// relups of the second and of the third. All lie in one folder, so a relup is given just before its release is taken in. `a`,
// `b` and `c` are each the file of a release without applications, in a folder of its own.
//
// The other names are of releases in folders, whose `ch_app` has modules. `A` are all files of the first. `B` are all files of
// the second, `B.lib` are those of its application, and each other name that begins with `B.` is one of them. `C`, `D` and `E`
// are each a release with its relup, and with the application of the second. `C.rel` is the release of the third alone. The
// script of `D` fails before its point of no return, that of `E` after it. `N` is a release with the application of the first,
// and without a relup.
const GIVEN: &[(&str, &[&str])] = &[
    ("@a.rel", &[A_REL]),
    ("@b.rel", &[B_REL]),
    ("@b.relup", &[B_RELUP]),
    ("@c.rel", &[C_REL]),
    ("@c.relup", &[C_RELUP]),
    ("@a", &[SMALL_A]),
    ("@b", &[SMALL_B]),
    ("@c", &[SMALL_C]),
    ("@A", &[A]),
    (
        "@B",
        &[RELEASE_B, APPLICATION_B, CH_SUP_B, AUX_B, CH3_B, RELUP_B],
    ),
    ("@B.rel", &[RELEASE_B]),
    ("@B.lib", &[APPLICATION_B, CH_SUP_B, AUX_B, CH3_B]),
    ("@B.app", &[APPLICATION_B]),
    ("@B.ch_sup", &[CH_SUP_B]),
    ("@B.aux", &[AUX_B]),
    ("@B.ch3", &[CH3_B]),
    ("@B.relup", &[RELUP_B]),
    ("@C", &[RELEASE_C, RELUP_C]),
    ("@C.rel", &[RELEASE_C]),
    ("@D", &[RELEASE_D, RELUP_D]),
    ("@E", &[RELEASE_E, RELUP_E]),
    ("@N", &[RELEASE_N]),
];

/// The lines for which a line stands, file by file: those of its name in [`GIVEN`]. None where it stands for itself.
pub(crate) fn given(line: &str) -> &[&str] {
    for (name, files) in GIVEN {
        if *name == line {
            return files;
        }
    }
    &[]
}

const A_REL: &str = r#"file a.rel
{release,{"ch_rel","A"},{erts,"14.2"},[{ch_app,"1"}]}.
.end"#;

const B_REL: &str = r#"file b.rel
{release,{"ch_rel","B"},{erts,"14.2"},[{ch_app,"2"}]}.
.end"#;

const B_RELUP: &str = r#"file relup
{"B",[{"A",up,[]}],[{"A",down,[]}]}.
.end"#;

const C_REL: &str = r#"file c.rel
{release,{"ch_rel","C"},{erts,"14.2"},[{ch_app,"2"}]}.
.end"#;

const C_RELUP: &str = r#"file relup
{"C",[{"A",up,[]},{"B",on,[]}],[{"A",down,[]}]}.
.end"#;

const SMALL_A: &str = r#"file a/r.rel
{release,{"r","A"},{erts,"1"},[]}.
.end"#;

const SMALL_B: &str = r#"file b/r.rel
{release,{"r","B"},{erts,"1"},[]}.
.end"#;

const SMALL_C: &str = r#"file c/r.rel
{release,{"r","C"},{erts,"1"},[]}.
.end"#;

const A: &str = r#"file releases/A/ch_rel.rel
{release,{"ch_rel","A"},{erts,"14.2"},[{ch_app,"1"}]}.
.end
file lib/ch_app-1/ebin/ch_app.app
{application,ch_app,[{vsn,"1"},{modules,[ch_sup,ch3,aux]},{mod,{ch_sup,[]}}]}.
.end
file lib/ch_app-1/ebin/ch_sup.mod
{supervisor,ch_sup,"1",[{ch3,{ch3,start_link,[]},permanent,2000,worker,[ch3]},{aux,{aux,start_link,[]},transient,brutal_kill,worker,[aux]}]}.
.end
file lib/ch_app-1/ebin/aux.mod
{worker,aux,"1",0,[{add,1,5},{stop,5,9,99}]}.
.end
file lib/ch_app-1/ebin/ch3.mod
{worker,ch3,"1",0,[{add,1,1},{on,4,7,40,400}]}.
.end"#;

const RELEASE_B: &str = r#"file releases/B/ch_rel.rel
{release,{"ch_rel","B"},{erts,"14.2"},[{ch_app,"2"}]}.
.end"#;

const APPLICATION_B: &str = r#"file lib/ch_app-2/ebin/ch_app.app
{application,ch_app,[{vsn,"2"},{modules,[ch_sup,ch3,aux]},{mod,{ch_sup,[]}}]}.
.end"#;

const CH_SUP_B: &str = r#"file lib/ch_app-2/ebin/ch_sup.mod
{supervisor,ch_sup,"1",[{ch3,{ch3,start_link,[]},permanent,2000,worker,[ch3]},{aux,{aux,start_link,[]},transient,brutal_kill,worker,[aux]}]}.
.end"#;

const AUX_B: &str = r#"file lib/ch_app-2/ebin/aux.mod
{worker,aux,"1",0,[{add,1,5},{stop,5,9,99}]}.
.end"#;

const CH3_B: &str = r#"file lib/ch_app-2/ebin/ch3.mod
{worker,ch3,"2",100,[{add,1,2},{change,"1",[],[{3,103}]},{change,{down,"1"},[],[{103,3}]}]}.
.end"#;

const RELUP_B: &str = r#"file releases/B/relup
{"B",[{"A",[],[{load_object_code,{ch_app,"2",[ch3]}},point_of_no_return,{suspend,[ch3]},{load,{ch3,brutal_purge,brutal_purge}},{code_change,up,[{ch3,[]}]},{resume,[ch3]}]}],[{"A",[],[{load_object_code,{ch_app,"1",[ch3]}},point_of_no_return,{suspend,[ch3]},{code_change,down,[{ch3,[]}]},{load,{ch3,brutal_purge,brutal_purge}},{resume,[ch3]}]}]}.
.end"#;

const RELEASE_C: &str = r#"file releases/C/ch_rel.rel
{release,{"ch_rel","C"},{erts,"14.2"},[{ch_app,"2"}]}.
.end"#;

const RELUP_C: &str = r#"file releases/C/relup
{"C",[{"A",[],[{load_object_code,{ch_app,"2",[ch3]}},point_of_no_return,{suspend,[ch3]},{load,{ch3,brutal_purge,brutal_purge}},{code_change,up,[{ch3,[]}]},{resume,[ch3]}]},{"B","same code",[point_of_no_return]}],[{"A",[],[{load_object_code,{ch_app,"1",[ch3]}},point_of_no_return,{suspend,[ch3]},{code_change,down,[{ch3,[]}]},{load,{ch3,brutal_purge,brutal_purge}},{resume,[ch3]}]}]}.
.end"#;

const RELEASE_D: &str = r#"file releases/D/ch_rel.rel
{release,{"ch_rel","D"},{erts,"14.2"},[{ch_app,"2"}]}.
.end"#;

const RELUP_D: &str = r#"file releases/D/relup
{"D",[{"A",[],[{load_object_code,{ch_app,"2",[ch3]}},{suspend,[ch3]},{load,{ch3,brutal_purge,brutal_purge}},{code_change,up,[{ch3,[]}]},{apply,{erlang,error,[x]}},point_of_no_return,{resume,[ch3]}]}],[]}.
.end"#;

const RELEASE_E: &str = r#"file releases/E/ch_rel.rel
{release,{"ch_rel","E"},{erts,"14.2"},[{ch_app,"2"}]}.
.end"#;

const RELUP_E: &str = r#"file releases/E/relup
{"E",[{"A",[],[{load_object_code,{ch_app,"2",[ch3]}},point_of_no_return,{suspend,[ch3]},{load,{ch3,brutal_purge,brutal_purge}},{code_change,up,[{ch3,[]}]},{apply,{erlang,error,[x]}},{resume,[ch3]}]}],[]}.
.end"#;

const RELEASE_N: &str = r#"file releases/N/ch_rel.rel
{release,{"ch_rel","N"},{erts,"14.2"},[{ch_app,"1"}]}.
.end"#;
