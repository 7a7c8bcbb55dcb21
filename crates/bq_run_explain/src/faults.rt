//! The faults of files, F1 to F80 (docs/LANGUAGE.md, docs/BUILD_RULES.md): which fault a word names, and what is printed for each.

ghost use Rattle.std.specs.Prelude.{◌≡◌, bytes_eq};
ghost use Rattle.bq_base_texts.specs.FaultKinds.{fault_called, fault_word, first_called};

use bq_base::FaultKind;
use itoa::Buffer;

const KINDS: [FaultKind; 58] = [
    FaultKind::BadByte,
    FaultKind::Indent,
    FaultKind::Tab,
    FaultKind::OpenString,
    FaultKind::Escape,
    FaultKind::BadInt,
    FaultKind::Bracket,
    FaultKind::FileTooLong,
    FaultKind::Syntax,
    FaultKind::Nesting,
    FaultKind::LeftOut,
    FaultKind::NotInBuild,
    FaultKind::UnknownName,
    FaultKind::Rebound,
    FaultKind::BoundTwice,
    FaultKind::BadFlow,
    FaultKind::DoubleParameter,
    FaultKind::BadLoadLabel,
    FaultKind::NoSuchFile,
    FaultKind::NoPackage,
    FaultKind::NoSymbol,
    FaultKind::PrivateSymbol,
    FaultKind::CycleReached,
    FaultKind::LoadFailed,
    FaultKind::CrossesPackage,
    FaultKind::LoadDepth,
    FaultKind::WrongType,
    FaultKind::Overflow,
    FaultKind::DivZero,
    FaultKind::Index,
    FaultKind::NoKey,
    FaultKind::Unhashable,
    FaultKind::DoubleKey,
    FaultKind::Frozen,
    FaultKind::Iterating,
    FaultKind::Unbound,
    FaultKind::Recursion,
    FaultKind::CallDepth,
    FaultKind::Args,
    FaultKind::StepLimit,
    FaultKind::TooLong,
    FaultKind::TooDeep,
    FaultKind::Fail,
    FaultKind::BadValue,
    FaultKind::NoMethod,
    FaultKind::Format,
    FaultKind::Select,
    FaultKind::NotInPackage,
    FaultKind::NoAttribute,
    FaultKind::MissingAttribute,
    FaultKind::AttributeType,
    FaultKind::DoubleTarget,
    FaultKind::BadName,
    FaultKind::GlobEmpty,
    FaultKind::GlobPattern,
    FaultKind::BadLabel,
    FaultKind::DanglingLabel,
    FaultKind::Schema,
];

/// Returns whether the word names the fault.
fn is_word_of(word: &[u8], kind: FaultKind) -> bool
    ensures { result ≡ bytes_eq word.now (fault_word kind) }
{
    let mut digits = Buffer::new();
    match word {
        [b'F', number @ ..] => number == digits.format(kind.number()).as_bytes(),
        _ => false,
    }
}

/// Returns the first of these faults that the word names.
#[tactic(auto, unfolding(bq_base_texts::specs::FaultKinds::first_called))]
fn first_called(word: &[u8], mut kinds: &[FaultKind]) -> Option<FaultKind>
    ensures { result ≡ first_called word.now kinds.entry.now }
{
    while let [kind, rest @ ..] = kinds {
        if is_word_of(word, *kind) {
            return Some(*kind);
        }
        kinds = rest;
    }
    None
}

/// Returns the fault that a word names, as `F47`.
pub fn fault_called(word: &[u8]) -> Option<FaultKind>
    ensures { result ≡ fault_called word.now }
{
    first_called(word, &KINDS)
}

/// Returns what a fault means, the smallest example that has it, and what to do.
pub fn text_of(kind: FaultKind) -> &'static str {
    match kind {
        FaultKind::BadByte => {
            r#"The file has a byte that no token can start with. Outside strings and comments a
file holds printable ASCII, spaces, tabs and line ends; `$`, `?`, `@`, a
backquote, a lone `!` and a backslash that does not end its line are not tokens
there either.

    === BUILD
    x = 1 $ 2

    $ bq //...
    //:BUILD:1: F1 BadByte

Take the byte out, or put it into a string or a comment. Quotes and spaces that
were copied from a web page are often not ASCII.
"#
        }
        FaultKind::Indent => {
            r#"A line is indented by a width that no line around it has. A line may be indented
further than the one before it, or exactly as far as one of those that it is
nested in.

    === f.bzl
    def f():
            pass
        pass
    === BUILD
    load(":f.bzl", "f")

    $ bq //...
    //:BUILD:1: F36 LoadFailed //:f.bzl
    //:f.bzl:3: F2 Indent

Indent the lines of a block by the same number of spaces.
"#
        }
        FaultKind::Tab => {
            r#"The indentation of a line has a tab. Only spaces may indent.

    $ printf '=== f.bzl\ndef f():\n\tpass\n=== BUILD\nload(":f.bzl", "f")\n' | bq //...
    //:BUILD:1: F36 LoadFailed //:f.bzl
    //:f.bzl:2: F3 Tab

Put spaces instead of the tab. Inside brackets, and on blank and comment lines,
tabs are allowed.
"#
        }
        FaultKind::OpenString => {
            r#"A string does not end: a line end comes before its closing quote, or the end of
the file before the three closing quotes of a triple-quoted one. The line is
that of the opening quote.

    === BUILD
    x = "abc
    y = 1

    $ bq //...
    //:BUILD:1: F4 OpenString

Close the string. For text of several lines use triple quotes.
"#
        }
        FaultKind::Escape => {
            r#"A string has a backslash before a byte that makes no escape. There are
`\n`, `\r`, `\t`, `\\`, `\'`, `\"`, and a backslash at the end of a line.

    === BUILD
    x = "\.c$"

    $ bq //...
    //:BUILD:1: F5 Escape

Double the backslash, or make the string raw: `r"\.c$"`. Escapes such as `\x41`
and `\u0041` are left out.
"#
        }
        FaultKind::BadInt => {
            r#"Something starts like a number but is not one, or is greater than
9223372036854775807. Numbers are decimal without leading zeros, hexadecimal
after `0x`, or octal after `0o`. There are no floats.

    === BUILD
    x = 010

    $ bq //...
    //:BUILD:1: F6 BadInt

Write `0o10` for an octal number and `10` for a decimal one; put a version such
as `1.2` into a string.
"#
        }
        FaultKind::Bracket => {
            r#"A closing bracket closes none, or one of another kind; or an opening bracket is
never closed. The line is that of the closing bracket, or of the innermost one
that stays open.

    === BUILD
    x = [1, 2)

    $ bq //...
    //:BUILD:1: F7 Bracket

Pair the brackets. If the named bracket looks right, look for one that is
missing before it.
"#
        }
        FaultKind::FileTooLong => {
            r#"A file has more than 1,048,576 bytes. The line is that of the first byte past
the limit.

    $ (echo '=== BUILD'; yes '# abcde' | head -n 131073) | bq //...
    //:BUILD:131073: F8 FileTooLong

Split the file, and move generated lists into .bzl files of their own.
"#
        }
        FaultKind::Syntax => {
            r#"A statement that the grammar does not have (docs/LANGUAGE.md, "Grammar"). The
line is the first of the top-level statement that the error is in; the error may
be further down.

    === BUILD
    filegroup(
        name = "x"
        srcs = ["s.txt"],
    )

    $ bq //...
    //:BUILD:1: F10 Syntax

Look through the statement for a missing comma, colon or operand (here the comma
after `"x"`). Words of Python that Starlark lacks, such as `import`, `class`,
`while`, `try` and `is`, are reserved.
"#
        }
        FaultKind::Nesting => {
            r#"In a statement more than 64 brackets and indents are open in one another.

    $ (echo '=== BUILD'; echo "x = $(printf '[%.0s' $(seq 65))$(printf ']%.0s' $(seq 65))") | bq //...
    //:BUILD:1: F11 Nesting

Give inner parts names of their own.
"#
        }
        FaultKind::LeftOut => {
            r#"A statement uses a part of Starlark that bq leaves out: `lambda`, a `def` inside
a `def`, `/` and `/=`, a member `x.y` that is not called, or `native` elsewhere
than in `native.rule(..)`.

    === f.bzl
    half = 7 / 2
    === BUILD
    load(":f.bzl", "half")

    $ bq //...
    //:BUILD:1: F36 LoadFailed //:f.bzl
    //:f.bzl:1: F12 LeftOut

Use `//` for `/`, and a function at the top of the file for an inner one. A file
that defines rules, as by `ctx.attr.srcs`, can't be loaded; a stub in its place
can (docs/REAL_WORKSPACES.md).
"#
        }
        FaultKind::NotInBuild => {
            r#"A BUILD file has a `def`, `if` or `for` statement, or a call with a `*` or `**`
argument. As in Bazel, these belong in .bzl files.

    === BUILD
    for n in ["a", "b"]:
        filegroup(name = n)

    $ bq //...
    //:BUILD:1: F13 NotInBuild

Use a comprehension such as `[filegroup(name = n) for n in ["a", "b"]]`, or move
the code into a macro in a .bzl file.
"#
        }
        FaultKind::UnknownName => {
            r#"A name that nothing binds: no assignment, `def` or `load` of the file, no
function of the language, and in a BUILD file no rule of the schema. In a .bzl
file rules are `native.NAME`, and `attr` is not a value: its functions are called
as `attr.int(..)`. Only .bzl files have `rule` and `attr`.

    === BUILD
    cc_library(name = "x", srcs = ["x.c"])

    $ bq //...
    //:BUILD:1: F20 UnknownName cc_library

For a rule: load it, or declare it in the file `rules.schema` at the root of the
workspace, as `rule cc_library` and `attr srcs label_list`. Without that file
only filegroup, genrule, alias and test_suite are known. `bzlq stubs` writes a
schema for a workspace (docs/REAL_WORKSPACES.md).
"#
        }
        FaultKind::Rebound => {
            r#"A .bzl file binds a global name twice, also by `+=`, or binds a name that it has
loaded. The line is that of the second binding.

    === f.bzl
    x = 1
    x = 2
    === BUILD
    load(":f.bzl", "x")

    $ bq //...
    //:BUILD:1: F36 LoadFailed //:f.bzl
    //:f.bzl:2: F21 Rebound x

Give the second value another name. In BUILD files, and for the variables of a
function, a second binding is allowed.
"#
        }
        FaultKind::BoundTwice => {
            r#"Two load clauses of a file bind the same name.

    === f.bzl
    a = 1
    === g.bzl
    a = 2
    === BUILD
    load(":f.bzl", "a")
    load(":g.bzl", "a")

    $ bq //...
    //:BUILD:2: F22 BoundTwice a

Load it once, or under another name: `load(":g.bzl", b = "a")`.
"#
        }
        FaultKind::BadFlow => {
            r#"A statement is where it may not be: `return` outside a function, `break` or
`continue` outside a loop of the same function, `load` inside a function, or an
`if` or `for` statement at the top of a .bzl file.

    === f.bzl
    if True:
        x = 1
    === BUILD
    load(":f.bzl", "x")

    $ bq //...
    //:BUILD:1: F36 LoadFailed //:f.bzl
    //:f.bzl:1: F23 BadFlow

At the top of a file use a conditional, as `x = 1 if True else 0`, or a
comprehension; or put the statements into a function and call it.
"#
        }
        FaultKind::DoubleParameter => {
            r#"Two parameters of a function have the same name.

    === f.bzl
    def f(a, a):
        pass
    === BUILD
    load(":f.bzl", "f")

    $ bq //...
    //:BUILD:1: F36 LoadFailed //:f.bzl
    //:f.bzl:1: F24 DoubleParameter a

Rename one of them.
"#
        }
        FaultKind::BadLoadLabel => {
            r#"The string of a `load` is not the label of a .bzl file. A label of one begins
with `//`, `:` or `@`, and its name ends in `.bzl`.

    === BUILD
    load("f.bzl", "f")

    $ bq //...
    //:BUILD:1: F30 BadLoadLabel

Write `":f.bzl"` for a file of the same package, and `"//package:f.bzl"` for one
of another. Labels that begin with `@@` are left out.
"#
        }
        FaultKind::NoSuchFile => {
            r#"The package that a load names exists, but the file doesn't.

    === BUILD
    load(":f.bzl", "f")

    $ bq //...
    //:BUILD:1: F31 NoSuchFile //:f.bzl

Correct the label, or add the file. A file of repository `r` lies below
`external/r/`.
"#
        }
        FaultKind::NoPackage => {
            r#"A load names a package that is not there: its directory has no BUILD file, or
the repository is not in the workspace.

    === BUILD
    load("@rules_cc//cc:defs.bzl", "cc_library")

    $ bq //...
    //:BUILD:1: F32 NoPackage @rules_cc//cc:defs.bzl

For another repository: bq fetches nothing; `bzlq` answers over stubs that it
makes for it (docs/REAL_WORKSPACES.md). For a directory of your own: add a BUILD
file to it, which may be empty.
"#
        }
        FaultKind::NoSymbol => {
            r#"A load asks for a name that the loaded file does not bind. What a file has
itself loaded is not passed on.

    === f.bzl
    a = 1
    === BUILD
    load(":f.bzl", "b")

    $ bq //...
    //:BUILD:1: F33 NoSymbol b

Correct the name, or bind it in the loaded file: `b = _b` passes on what was
loaded as `_b`.
"#
        }
        FaultKind::PrivateSymbol => {
            r#"A load asks for a name that begins with `_`. Such names are private to their
file.

    === f.bzl
    _a = 1
    === BUILD
    load(":f.bzl", "_a")

    $ bq //...
    //:BUILD:1: F34 PrivateSymbol _a

Take the underscore off the name in the file that binds it.
"#
        }
        FaultKind::CycleReached => {
            r#"Loads lead from this file into a cycle: a file that loads itself, directly or
through others. The detail is the load that leads there.

    === a.bzl
    load(":b.bzl", "b")
    a = 1
    === b.bzl
    load(":a.bzl", "a")
    b = 1
    === BUILD
    load(":a.bzl", "a")

    $ bq //...
    //:BUILD:1: F35 CycleReached //:a.bzl
    //:a.bzl:1: F35 CycleReached //:b.bzl
    //:b.bzl:1: F35 CycleReached //:a.bzl

Follow the details round the cycle, and move what both sides need into a file
that loads neither.
"#
        }
        FaultKind::LoadFailed => {
            r#"The file that is loaded has a fault of its own, which has its own line.

    === f.bzl
    x = 1 // 0
    === BUILD
    load(":f.bzl", "x")

    $ bq //...
    //:BUILD:1: F36 LoadFailed //:f.bzl
    //:f.bzl:1: F42 DivZero

Correct the loaded file; this fault then goes away by itself.
"#
        }
        FaultKind::CrossesPackage => {
            r#"A label reaches into another package: a package nearer to the file owns it. It
occurs in loads, where the detail is the label, in labels of the own package, and
in the names of targets and outputs.

    === BUILD
    filegroup(name = "x", srcs = ["a/s.txt"])
    === a/BUILD
    === a/s.txt

    $ bq //...
    //:BUILD:1: F37 CrossesPackage

Name the file in its own package: `//a:s.txt`.
"#
        }
        FaultKind::LoadDepth => {
            r#"From this file more than 1,000 loads lead on, one after another.

    $ (echo '=== BUILD'; echo 'load(":1.bzl")'; for n in $(seq 1001); do echo "=== $n.bzl"; [ $n = 1001 ] || echo "load(\":$((n + 1)).bzl\")"; done) | bq //...
    //:BUILD:1: F38 LoadDepth //:1.bzl

Load the files directly instead of each through the one before.
"#
        }
        FaultKind::WrongType => {
            r#"A value has a type that the operator, function, method or statement does not
take. Nothing is converted: `"a" + 1` and `True + 1` are faults, and so is a
`for` over a string.

    === BUILD
    x = "a" + 1

    $ bq //...
    //:BUILD:1: F40 Type

Convert by `str(..)` or `int(..)`. The line is that of the statement at the top
of the file; if it calls a function, the place is in there. What `sorted`, `max`
and `min` compare is integers alone or strings alone, and `key =` is left out.
"#
        }
        FaultKind::Overflow => {
            r#"The result is an integer that does not fit into 64 bits: less than
-9223372036854775808 or greater than 9223372036854775807.

    === BUILD
    x = 1 << 63

    $ bq //...
    //:BUILD:1: F41 Overflow

Keep such numbers in strings. In Bazel integers have no bound.
"#
        }
        FaultKind::DivZero => {
            r#"A division `//` or a remainder `%` by zero.

    === BUILD
    x = 1 // 0

    $ bq //...
    //:BUILD:1: F42 DivZero

Test the divisor first: `a // b if b else 0`.
"#
        }
        FaultKind::Index => {
            r#"An index past the end of a string, list, tuple or range, also one that counts
from the end; or `pop` of an empty list.

    === BUILD
    x = [1, 2][2]

    $ bq //...
    //:BUILD:1: F43 Index

The first index is 0, and the last -1. Compare with `len(..)` first; slices
never have this fault.
"#
        }
        FaultKind::NoKey => {
            r#"A dict does not have the key; or `popitem` is called on an empty one.

    === BUILD
    x = {"a": 1}["b"]

    $ bq //...
    //:BUILD:1: F44 NoKey

Use `d.get("b", default)`, or ask `"b" in d` first.
"#
        }
        FaultKind::Unhashable => {
            r#"A value that can't be a key of a dict. Keys are `None`, bools, integers,
strings, and tuples of these.

    === BUILD
    x = {[1]: "a"}

    $ bq //...
    //:BUILD:1: F45 Unhashable

Make a tuple of the list: `tuple(x)`. Functions and ranges are not keys here
either.
"#
        }
        FaultKind::DoubleKey => {
            r#"A dict `{..}` has the same key twice.

    === BUILD
    x = {"a": 1, "a": 2}

    $ bq //...
    //:BUILD:1: F46 DoubleKey

Take one of the two out. In a comprehension a key may come again and gets the
last value.
"#
        }
        FaultKind::Frozen => {
            r#"A list or dict is changed that another file has made. Once a file has been
evaluated, nothing changes what it made.

    === f.bzl
    l = []
    def add():
        l.append(1)
    === BUILD
    load(":f.bzl", "add")
    add()

    $ bq //...
    //:BUILD:2: F47 Frozen

Change a copy: `list(l)`, `dict(d)`, `l + [1]`. A list that a function makes
while it runs may be changed by the file that called it.
"#
        }
        FaultKind::Iterating => {
            r#"A list or dict is changed while a `for` or a comprehension goes over it.

    === f.bzl
    def f(l):
        for x in l:
            l.append(x)
    f([1])
    === BUILD
    load(":f.bzl", "f")

    $ bq //...
    //:BUILD:1: F36 LoadFailed //:f.bzl
    //:f.bzl:4: F48 Iterating

Go over a copy: `for x in list(l)`.
"#
        }
        FaultKind::Unbound => {
            r#"A variable is used before it has a value. A name that a function binds anywhere
is its own in all of it, also where the file has a global of that name.

    === BUILD
    y = x
    x = 1

    $ bq //...
    //:BUILD:1: F49 Unbound

Give it a value before its first use. In a function that should read the global,
give its own variable another name.
"#
        }
        FaultKind::Recursion => {
            r#"A function is called while it is already running, directly or through others.
Starlark has no recursion.

    === f.bzl
    def f(n):
        return f(n - 1) if n else 0
    f(1)
    === BUILD
    load(":f.bzl", "f")

    $ bq //...
    //:BUILD:1: F36 LoadFailed //:f.bzl
    //:f.bzl:3: F50 Recursion

Write a loop over a range or over a list of what is left to do.
"#
        }
        FaultKind::CallDepth => {
            r#"More than 100 functions run at one time, each called by the one before it.

    $ (echo '=== f.bzl'; echo 'def f0(): pass'; for n in $(seq 100); do echo "def f$n(): f$((n - 1))()"; done; echo 'f100()'; echo '=== BUILD'; echo 'load(":f.bzl")') | bq //...
    //:BUILD:1: F36 LoadFailed //:f.bzl
    //:f.bzl:102: F51 CallDepth

Let functions return values instead of calling on.
"#
        }
        FaultKind::Args => {
            r#"The arguments of a call don't fit its parameters: one is missing, given twice or
too many, or has a name that the function lacks. Rules take only named
arguments.

    === BUILD
    filegroup("x")

    $ bq //...
    //:BUILD:1: F52 Args

Compare the call with the `def`; for built-in functions and methods see
docs/LANGUAGE.md, for rules and `glob` docs/BUILD_RULES.md.
"#
        }
        FaultKind::StepLimit => {
            r#"The evaluation of a file takes more steps than `--max-steps` allows, by default
1,000,000 (docs/LANGUAGE.md, "Steps"). The steps of the functions that it calls
count, those of the files that it loads don't.

    === BUILD
    x = [n for n in range(1000000)]

    $ bq //...
    //:BUILD:1: F53 StepLimit

Give more steps: `--max-steps 100000000`. If that is too few as well, a loop may
be longer than was meant.
"#
        }
        FaultKind::TooLong => {
            r#"A string, list, tuple or dict would have more than 1,048,576 bytes or elements.
So would a text that `print`, `str` or `fail` makes.

    === BUILD
    x = "a" * 1048577

    $ bq //...
    //:BUILD:1: F54 TooLong

Make it in parts, or use a range, which takes no memory for its elements.
"#
        }
        FaultKind::TooDeep => {
            r#"A value that is printed, compared or made a key has values in it that are nested
more than 64 deep, such as a list that holds itself.

    === BUILD
    x = []
    x.append(x)
    y = str(x)

    $ bq //...
    //:BUILD:3: F55 TooDeep

Keep values flat, and don't put a list into itself.
"#
        }
        FaultKind::Fail => {
            r#"The file calls `fail`. The detail is its message, in quotes.

    === f.bzl
    def check(size):
        if size < 1:
            fail("size must be positive, not", size)
    === BUILD
    load(":f.bzl", "check")
    check(0)

    $ bq //...
    //:BUILD:2: F56 Fail "size must be positive, not 0"

The message says what the macro wants.
"#
        }
        FaultKind::BadValue => {
            r#"A value has the right type and can't be used: `int("x")`, a step of 0 in a range
or slice, a shift by more than 63, an empty separator, `index` or `remove` of
what is not there, `min` or `max` of nothing, or an assignment to more or fewer
names than there are elements. Of rules: an attribute of `rule` whose name no
call could give or all rules have, `rule` in a macro that a BUILD file calls, and
the call of a rule that no global of its own .bzl file holds.

    === BUILD
    a, b = [1, 2, 3]

    $ bq //...
    //:BUILD:1: F57 BadValue

Test the value first. docs/LANGUAGE.md has the faults of each function and
method.
"#
        }
        FaultKind::NoMethod => {
            r#"The type of the value has no method of this name. Calls such as
`selects.with_or(..)` end so too: a stub has plain values.

    === BUILD
    x = "a".append("b")

    $ bq //...
    //:BUILD:1: F58 NoMethod

Look the method up in docs/LANGUAGE.md; strings are joined by `+`, and never
changed.
"#
        }
        FaultKind::Format => {
            r#"A format does not fit its values: too few or too many, `%d` of something else
than an integer, a conversion other than `%s`, `%r`, `%d` and `%%`; or in
`format` a lone brace, a field that no argument has, or fields with and without
numbers.

    === BUILD
    x = "%s-%s" % "a"

    $ bq //...
    //:BUILD:1: F59 Format

Give a tuple with a value for each field, as `"%s-%s" % ("a", "b")`; write `%%`,
`{{` and `}}` for the signs themselves.
"#
        }
        FaultKind::Select => {
            r#"`select` is called. Its value depends on a configuration, and bq loads packages
without one.

    === BUILD
    filegroup(name = "x", srcs = select({"//conditions:default": ["s.txt"]}))

    $ bq //...
    //:BUILD:1: F60 Select

The package has no targets. To ask about it, write one branch of the
`select` in a copy of the file that is laid over the tree (`bzlq bundle TREE
OVERLAY`).
"#
        }
        FaultKind::NotInPackage => {
            r#"A rule, `glob` or another function of BUILD files is called while no BUILD file
is evaluated: at the top of a .bzl file, and not in a function that a BUILD file
calls.

    === f.bzl
    native.filegroup(name = "x")
    === BUILD
    load(":f.bzl")

    $ bq //...
    //:BUILD:1: F36 LoadFailed //:f.bzl
    //:f.bzl:1: F70 NotInPackage

Put the call into a function, and call that from a BUILD file.
"#
        }
        FaultKind::NoAttribute => {
            r#"A call of a rule gives an attribute that the rule does not have.

    === BUILD
    filegroup(name = "x", deps = [":y"])

    $ bq //...
    //:BUILD:1: F71 NoAttribute

Correct the name, or declare the attribute in `rules.schema`, as `attr deps
label_list` after the line of its rule. A schema has to name filegroup and the
other three too, if they are used.
"#
        }
        FaultKind::MissingAttribute => {
            r#"A call of a rule leaves out `name`, or an attribute that the schema calls
mandatory.

    === BUILD
    filegroup(srcs = ["s.txt"])

    $ bq //...
    //:BUILD:1: F72 MissingAttribute

Give the attribute. `None` counts as not given.
"#
        }
        FaultKind::AttributeType => {
            r#"The value of an attribute, or of an argument of `glob`, `exports_files` or
`package_group`, has another type than is declared.

    === BUILD
    filegroup(name = "x", srcs = "s.txt")

    $ bq //...
    //:BUILD:1: F73 AttributeType

Give a list where a list is declared: `["s.txt"]`. If the schema is wrong,
correct the type there; attributes that are dicts can't be declared.
"#
        }
        FaultKind::DoubleTarget => {
            r#"A package declares two targets of one name: rules, groups or outputs; or exports
a file that has the name of one.

    === BUILD
    filegroup(name = "x")
    filegroup(name = "x")

    $ bq //...
    //:BUILD:2: F74 DoubleTarget

Rename one. The line is that of the second call; if it is a macro, it may
declare more than its own name.
"#
        }
        FaultKind::BadName => {
            r#"The name of a target or an output can't be one: it is empty, begins or ends with
a slash, has an empty segment or one that is `.` or `..`, or a byte that is `:`,
`\` or not printable ASCII.

    === BUILD
    filegroup(name = "a/../x")

    $ bq //...
    //:BUILD:1: F75 BadName

Use letters, digits and `_ - . + /`.
"#
        }
        FaultKind::GlobEmpty => {
            r#"A `glob` with `allow_empty = False` finds nothing, or one of its include
patterns matches no file.

    === BUILD
    filegroup(name = "x", srcs = glob(["*.c"], allow_empty = False))

    $ bq //...
    //:BUILD:1: F76 GlobEmpty

Correct the pattern, or take `allow_empty` out. In a bundle a file counts by its
path, so an empty one serves; files of packages further down are never found.
"#
        }
        FaultKind::GlobPattern => {
            r#"A pattern of `glob` is invalid: it is empty, has an empty segment or one that is
`.` or `..`, or has `**` in a longer segment.

    === BUILD
    filegroup(name = "x", srcs = glob(["**.c"]))

    $ bq //...
    //:BUILD:1: F77 GlobPattern

Write `**/*.c` for all C files below the package. Patterns are relative to it
and begin with no slash.
"#
        }
        FaultKind::BadLabel => {
            r#"A text that should be a label is not one (docs/BUILD_RULES.md, "Labels").

    === BUILD
    filegroup(name = "x", srcs = ["a:b"])

    $ bq //...
    //:BUILD:1: F78 BadLabel

Write `//a:b` for a target of another package, `:b` or `b` for one of the own,
and `@r//a:b` for one of another repository. Labels that begin with `@@` are
left out.
"#
        }
        FaultKind::DanglingLabel => {
            r#"A target depends on a label of another package that names no target there: the
package is missing or failed, or has no such target. The target stays, without
that dependency.

    === BUILD
    filegroup(name = "x", srcs = ["//a:y"])
    === a/BUILD

    $ bq //...
    //:x
    //:BUILD:1: F79 DanglingLabel //a:y

If the other package has a fault of its own, correct that first. A source file of
another package has to be exported there by `exports_files`, or be named by one
of its targets.
"#
        }
        FaultKind::Schema => {
            r#"A line of `rules.schema` is wrong. The run ends with E6, which has the line.
Lines are `rule NAME`, then `attr NAME TYPE` for each of its attributes, with
`mandatory` after it if each call has to give it; comments begin with `#`. Types
are string, int, bool, string_list, label, label_list, output and output_list.

    === rules.schema
    rule cc_library
    attr srcs labels

    $ bq //...
    bq: E6 Schema 2

Correct the line: single spaces part its words, no name comes twice, and the
six attributes that all rules have (name, visibility, tags, features, testonly,
deprecation) are not declared.
"#
        }
    }
}
