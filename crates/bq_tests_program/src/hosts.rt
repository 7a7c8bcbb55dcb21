//! Hosts: which calls reach them, in which order, and what is left of a file whose call is refused.
//!
//! Whatever a host makes of a call, it gets the call of each function as it is written: so this one takes any arguments. What the host of
//! a run makes of calls is in the rows.
ghost use Rattle.std.specs.Prelude.{◌≡◌};
ghost use Rattle.bq_tests_program.specs.Noting.{is_licenses, noted};

use bq_base::{Bytes, EvalFault};
use bq_base_texts::NameSet;
use bq_builtin_machine::{Args, Machine};
use bq_eval::{EvaluatedFile, FileOutcome, ResolvedModule, eval_module};
use bq_load_front::resolved_file;
use bq_package_values::{BuiltIns, Host, Written};
use bq_parse_grammar::FileKind;
use bq_predeclared::HostFunction;
use bq_resolve_scope::{ResolvedFile, Universe};
use bq_value::{EvalErr, Value};
use bq_value_datum::{AttributeValue, RuleClass, Seed};
use std::alloc::{AllocError, Global};
use std::sync::Arc;

/// Notes the calls that it accepts: all but those of `licenses`, and of rules that a .bzl file declares, which are F70.
#[derive(Drop)]
struct Noting {
    calls: Vec<HostFunction>,
}

fn is_licenses(function: HostFunction) -> bool
    ensures { result ≡ is_licenses function }
{
    matches!(function, HostFunction::Licenses)
}

impl Host for Noting {
    ghost use Rattle.std.specs.Prelude.{List};
    ghost use Rattle.bq_predeclared.specs.declared.host_function.HostFunction.{HostFunction};

    ghost Kept = { List HostFunction };

    ghost seen = { λ h. h.calls.items };

    ghost means = { noted };

    fn in_build(&self) -> bool {
        true
    }

    fn read_default(&self, _alloc: Global, _written: Written) -> Result<AttributeValue, EvalErr> {
        Err(EvalErr::Bad(EvalFault::BadLabel))
    }

    #[tactic(auto, unfolding(crate::specs::Noting::noted_call))]
    fn call(
        &mut self,
        _alloc: Global,
        function: HostFunction,
        _args: Args,
        _machine: &mut Machine,
    ) -> Result<Value, EvalErr> {
        if is_licenses(function) {
            return Err(EvalErr::Bad(EvalFault::NotInPackage));
        }
        self.calls.push(function)?;
        Ok(Value::none())
    }

    #[tactic(auto, unfolding(crate::specs::Noting::noted_rule))]
    fn call_rule(
        &mut self,
        _alloc: Global,
        _kind: &Bytes,
        _class: &RuleClass,
        _args: Args,
        _machine: &mut Machine,
    ) -> Result<Value, EvalErr> {
        Err(EvalErr::Bad(EvalFault::NotInPackage))
    }
}

/// A BUILD file, and what is wanted of it: what it prints, the line of F70 if it has that fault, and the calls that were accepted.
#[derive(Clone, Copy)]
struct Case {
    text: &'static str,
    prints: &'static str,
    fault: Option<u32>,
    calls: &'static [HostFunction],
}

/// Whether the prints are this text.
fn is_text(prints: &[Bytes], text: &[u8]) -> bool {
    match prints {
        [] => text.is_empty(),
        [one] => one.as_slice() == text,
        _ => false,
    }
}

/// Whether a file printed, ended and called as is wanted.
fn is_wanted(evaluated: &EvaluatedFile<Noting>, case: Case) -> bool {
    let ended = match &evaluated.outcome {
        FileOutcome::Module(_, prints) => case.fault.is_none()
            && is_text(prints, case.prints.as_bytes()),
        FileOutcome::Failed(fault, prints) => {
            fault.kind.number() == 70
                && case.fault == Some(fault.line)
                && is_text(prints, case.prints.as_bytes())
        }
    };
    ended && evaluated.host.calls.as_slice() == case.calls
}

/// What files are evaluated with.
#[derive(Clone, Copy)]
struct Setting<'a> {
    alloc: Global,
    universe: &'a Universe,
    built_ins: &'a BuiltIns,
}

/// Whether a file that is read gives what is wanted of it.
fn file_is_right(
    setting: Setting<'_>,
    file: &ResolvedFile,
    case: Case,
) -> Result<bool, AllocError> {
    let host = Noting {
        calls: Vec::new(setting.alloc),
    };
    let module = ResolvedModule {
        number: 0,
        file,
        loaded: &[],
        imports: &[],
        files: &[],
        once: true,
    };
    let evaluated = eval_module(
        setting.alloc,
        setting.built_ins,
        &module,
        host,
        1_000_000,
        Seed::fixed(),
    )?;
    Ok(is_wanted(&evaluated, case))
}

/// Whether a text is a file that gives what is wanted of it.
fn is_right(setting: Setting<'_>, case: Case) -> Result<bool, AllocError> {
    match resolved_file(setting.alloc, setting.universe, case.text.as_bytes()) {
        Ok(file) => file_is_right(setting, &file, case),
        Err(_) => Ok(false),
    }
}

/// The number of the first case that isn't right, from 1; 0 if all are.
fn first_wrong(setting: Setting<'_>) -> Result<u64, AllocError> {
    let mut number = 0u64;
    for case in CASES {
        number = number.wrapping_add(1);
        if !is_right(setting, *case)? {
            return Ok(number);
        }
    }
    Ok(0)
}

/// The names of two rules.
fn rules(alloc: Global) -> Result<Arc<NameSet>, AllocError> {
    let mut rules = NameSet::new(alloc);
    rules.add(&Bytes::from_slice(alloc, b"filegroup")?)?;
    rules.add(&Bytes::from_slice(alloc, b"genrule")?)?;
    Ok(Arc::new(alloc, rules)?)
}

/// The same, over two rules of a schema.
fn first_wrong_of(alloc: Global) -> Result<u64, AllocError> {
    let rules = rules(alloc)?;
    let universe = Universe::of_names(FileKind::Build, &rules)?;
    let built_ins = BuiltIns::new(rules);
    first_wrong(Setting {
        alloc,
        universe: &universe,
        built_ins: &built_ins,
    })
}

#[test]
fn calls_of_hosts(rt: HostRuntime) -> Result<(), AllocError> {
    let wrong = first_wrong_of(rt.alloc())?;
    assert!(rt; wrong == 0, "case {wrong}");
    Ok(())
}

const CASES: &[Case] = &[
    Case {
        text: r#"glob(["*"])
filegroup(name = "a")
genrule()
print(package_name(1, 2), exports_files(x = 3), package_group(), package())
"#,
        prints: "None None None None",
        fault: None,
        calls: &[
            HostFunction::Glob,
            HostFunction::Rule(0),
            HostFunction::Rule(1),
            HostFunction::PackageName,
            HostFunction::ExportsFiles,
            HostFunction::PackageGroup,
            HostFunction::Package,
        ],
    },
    // By its value, once for each element, after its arguments.
    Case {
        text: r#"f = genrule
[f(name = package_name()) for _ in range(2)]
"#,
        prints: "",
        fault: None,
        calls: &[
            HostFunction::PackageName,
            HostFunction::Rule(1),
            HostFunction::PackageName,
            HostFunction::Rule(1),
        ],
    },
    Case {
        text: "x = 1\n",
        prints: "",
        fault: None,
        calls: &[],
    },
    // A call that is refused ends the file, and what was accepted before it stays.
    Case {
        text: r#"package()
print("kept")
licenses(["x"])
package()
"#,
        prints: "kept",
        fault: Some(3),
        calls: &[HostFunction::Package],
    },
];
