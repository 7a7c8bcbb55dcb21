//! The faults of files, with the numbers and names that users see. They stand here once, and everything else names
//! the variant.

ghost use Rattle.std.specs.Prelude.{◌≡◌};
ghost use Rattle.bq_base.specs.Fault.{fault_number, fault_name, kind_of_token, kind_of_statement, kind_of_name, kind_of_load, kind_of_eval, eval_fault_number, fault_at, err_as};
ghost use Rattle.bq_base.specs.declared.fault.SourceErr.TheVariants.{Memory};

use crate::bytes::Bytes;
use std::alloc::{AllocError, AllocFailed};

/// What is wrong, as `F1 BadByte`.
#[derive(Clone, Copy, Debug, PartialEq, Eq)]
pub enum FaultKind {
    // Lexis.
    BadByte = 1,
    Indent = 2,
    Tab = 3,
    OpenString = 4,
    Escape = 5,
    BadInt = 6,
    Bracket = 7,
    FileTooLong = 8,
    // Grammar.
    Syntax = 10,
    Nesting = 11,
    LeftOut = 12,
    NotInBuild = 13,
    // Names.
    UnknownName = 20,
    Rebound = 21,
    BoundTwice = 22,
    BadFlow = 23,
    DoubleParameter = 24,
    // Loads.
    BadLoadLabel = 30,
    NoSuchFile = 31,
    NoPackage = 32,
    NoSymbol = 33,
    PrivateSymbol = 34,
    CycleReached = 35,
    LoadFailed = 36,
    CrossesPackage = 37,
    LoadDepth = 38,
    // Evaluation.
    WrongType = 40,
    Overflow = 41,
    DivZero = 42,
    Index = 43,
    NoKey = 44,
    Unhashable = 45,
    DoubleKey = 46,
    Frozen = 47,
    Iterating = 48,
    Unbound = 49,
    Recursion = 50,
    CallDepth = 51,
    Args = 52,
    StepLimit = 53,
    TooLong = 54,
    TooDeep = 55,
    Fail = 56,
    BadValue = 57,
    NoMethod = 58,
    Format = 59,
    Select = 60,
    // Calls of the build functions.
    NotInPackage = 70,
    NoAttribute = 71,
    MissingAttribute = 72,
    AttributeType = 73,
    DoubleTarget = 74,
    BadName = 75,
    GlobEmpty = 76,
    GlobPattern = 77,
    BadLabel = 78,
    // The target graph.
    DanglingLabel = 79,
    // `rules.schema`.
    Schema = 80,
}

impl FaultKind {
    /// The number after the `F`.
    pub fn number(self) -> u32
        ensures { result ≡ fault_number self }
    {
        self as u32
    }

    /// The name after the number.
    pub fn name(self) -> &'static str
        ensures { result.now ≡ fault_name self }
    {
        match self {
            FaultKind::BadByte => "BadByte",
            FaultKind::Indent => "Indent",
            FaultKind::Tab => "Tab",
            FaultKind::OpenString => "OpenString",
            FaultKind::Escape => "Escape",
            FaultKind::BadInt => "BadInt",
            FaultKind::Bracket => "Bracket",
            FaultKind::FileTooLong => "FileTooLong",
            FaultKind::Syntax => "Syntax",
            FaultKind::Nesting => "Nesting",
            FaultKind::LeftOut => "LeftOut",
            FaultKind::NotInBuild => "NotInBuild",
            FaultKind::UnknownName => "UnknownName",
            FaultKind::Rebound => "Rebound",
            FaultKind::BoundTwice => "BoundTwice",
            FaultKind::BadFlow => "BadFlow",
            FaultKind::DoubleParameter => "DoubleParameter",
            FaultKind::BadLoadLabel => "BadLoadLabel",
            FaultKind::NoSuchFile => "NoSuchFile",
            FaultKind::NoPackage => "NoPackage",
            FaultKind::NoSymbol => "NoSymbol",
            FaultKind::PrivateSymbol => "PrivateSymbol",
            FaultKind::CycleReached => "CycleReached",
            FaultKind::LoadFailed => "LoadFailed",
            FaultKind::CrossesPackage => "CrossesPackage",
            FaultKind::LoadDepth => "LoadDepth",
            FaultKind::WrongType => "Type",
            FaultKind::Overflow => "Overflow",
            FaultKind::DivZero => "DivZero",
            FaultKind::Index => "Index",
            FaultKind::NoKey => "NoKey",
            FaultKind::Unhashable => "Unhashable",
            FaultKind::DoubleKey => "DoubleKey",
            FaultKind::Frozen => "Frozen",
            FaultKind::Iterating => "Iterating",
            FaultKind::Unbound => "Unbound",
            FaultKind::Recursion => "Recursion",
            FaultKind::CallDepth => "CallDepth",
            FaultKind::Args => "Args",
            FaultKind::StepLimit => "StepLimit",
            FaultKind::TooLong => "TooLong",
            FaultKind::TooDeep => "TooDeep",
            FaultKind::Fail => "Fail",
            FaultKind::BadValue => "BadValue",
            FaultKind::NoMethod => "NoMethod",
            FaultKind::Format => "Format",
            FaultKind::Select => "Select",
            FaultKind::NotInPackage => "NotInPackage",
            FaultKind::NoAttribute => "NoAttribute",
            FaultKind::MissingAttribute => "MissingAttribute",
            FaultKind::AttributeType => "AttributeType",
            FaultKind::DoubleTarget => "DoubleTarget",
            FaultKind::BadName => "BadName",
            FaultKind::GlobEmpty => "GlobEmpty",
            FaultKind::GlobPattern => "GlobPattern",
            FaultKind::BadLabel => "BadLabel",
            FaultKind::DanglingLabel => "DanglingLabel",
            FaultKind::Schema => "Schema",
        }
    }
}

/// What is wrong with the tokens of a text: F1 to F8.
#[derive(Clone, Copy, Debug, PartialEq, Eq)]
pub enum TokenFault {
    BadByte,
    Indent,
    Tab,
    OpenString,
    Escape,
    BadInt,
    Bracket,
    FileTooLong,
}

impl TokenFault {
    /// The same fault, among all.
    pub fn kind(self) -> FaultKind
        ensures { result ≡ kind_of_token self }
    {
        match self {
            TokenFault::BadByte => FaultKind::BadByte,
            TokenFault::Indent => FaultKind::Indent,
            TokenFault::Tab => FaultKind::Tab,
            TokenFault::OpenString => FaultKind::OpenString,
            TokenFault::Escape => FaultKind::Escape,
            TokenFault::BadInt => FaultKind::BadInt,
            TokenFault::Bracket => FaultKind::Bracket,
            TokenFault::FileTooLong => FaultKind::FileTooLong,
        }
    }
}

/// What is wrong with a statement: F10 to F13.
#[derive(Clone, Copy, Debug, PartialEq, Eq)]
pub enum StatementFault {
    Syntax,
    Nesting,
    LeftOut,
    NotInBuild,
}

impl StatementFault {
    /// The same fault, among all.
    pub fn kind(self) -> FaultKind
        ensures { result ≡ kind_of_statement self }
    {
        match self {
            StatementFault::Syntax => FaultKind::Syntax,
            StatementFault::Nesting => FaultKind::Nesting,
            StatementFault::LeftOut => FaultKind::LeftOut,
            StatementFault::NotInBuild => FaultKind::NotInBuild,
        }
    }
}

/// What is wrong with the names and the flow of a file: F20 to F24; and F11, of trees that no file is parsed to.
#[derive(Clone, Copy, Debug, PartialEq, Eq)]
pub enum NameFault {
    Nesting,
    UnknownName,
    Rebound,
    BoundTwice,
    BadFlow,
    DoubleParameter,
}

impl NameFault {
    /// The same fault, among all.
    pub fn kind(self) -> FaultKind
        ensures { result ≡ kind_of_name self }
    {
        match self {
            NameFault::Nesting => FaultKind::Nesting,
            NameFault::UnknownName => FaultKind::UnknownName,
            NameFault::Rebound => FaultKind::Rebound,
            NameFault::BoundTwice => FaultKind::BoundTwice,
            NameFault::BadFlow => FaultKind::BadFlow,
            NameFault::DoubleParameter => FaultKind::DoubleParameter,
        }
    }
}

/// What is wrong with the loads of a file: F30 to F38.
#[derive(Clone, Copy, Debug, PartialEq, Eq)]
pub enum LoadFault {
    BadLoadLabel,
    NoSuchFile,
    NoPackage,
    NoSymbol,
    PrivateSymbol,
    CycleReached,
    LoadFailed,
    CrossesPackage,
    LoadDepth,
}

impl LoadFault {
    /// The same fault, among all.
    pub fn kind(self) -> FaultKind
        ensures { result ≡ kind_of_load self }
    {
        match self {
            LoadFault::BadLoadLabel => FaultKind::BadLoadLabel,
            LoadFault::NoSuchFile => FaultKind::NoSuchFile,
            LoadFault::NoPackage => FaultKind::NoPackage,
            LoadFault::NoSymbol => FaultKind::NoSymbol,
            LoadFault::PrivateSymbol => FaultKind::PrivateSymbol,
            LoadFault::CycleReached => FaultKind::CycleReached,
            LoadFault::LoadFailed => FaultKind::LoadFailed,
            LoadFault::CrossesPackage => FaultKind::CrossesPackage,
            LoadFault::LoadDepth => FaultKind::LoadDepth,
        }
    }
}

/// What is wrong in the evaluation of a file: F37, F40 to F60 and F70 to F78.
#[derive(Clone, Copy, Debug, PartialEq, Eq)]
pub enum EvalFault {
    CrossesPackage,
    WrongType,
    Overflow,
    DivZero,
    Index,
    NoKey,
    Unhashable,
    DoubleKey,
    Frozen,
    Iterating,
    Unbound,
    Recursion,
    CallDepth,
    Args,
    StepLimit,
    TooLong,
    TooDeep,
    Fail,
    BadValue,
    NoMethod,
    Format,
    Select,
    NotInPackage,
    NoAttribute,
    MissingAttribute,
    AttributeType,
    DoubleTarget,
    BadName,
    GlobEmpty,
    GlobPattern,
    BadLabel,
}

impl EvalFault {
    /// The same fault, among all.
    pub fn kind(self) -> FaultKind
        ensures { result ≡ kind_of_eval self }
    {
        match self {
            EvalFault::CrossesPackage => FaultKind::CrossesPackage,
            EvalFault::WrongType => FaultKind::WrongType,
            EvalFault::Overflow => FaultKind::Overflow,
            EvalFault::DivZero => FaultKind::DivZero,
            EvalFault::Index => FaultKind::Index,
            EvalFault::NoKey => FaultKind::NoKey,
            EvalFault::Unhashable => FaultKind::Unhashable,
            EvalFault::DoubleKey => FaultKind::DoubleKey,
            EvalFault::Frozen => FaultKind::Frozen,
            EvalFault::Iterating => FaultKind::Iterating,
            EvalFault::Unbound => FaultKind::Unbound,
            EvalFault::Recursion => FaultKind::Recursion,
            EvalFault::CallDepth => FaultKind::CallDepth,
            EvalFault::Args => FaultKind::Args,
            EvalFault::StepLimit => FaultKind::StepLimit,
            EvalFault::TooLong => FaultKind::TooLong,
            EvalFault::TooDeep => FaultKind::TooDeep,
            EvalFault::Fail => FaultKind::Fail,
            EvalFault::BadValue => FaultKind::BadValue,
            EvalFault::NoMethod => FaultKind::NoMethod,
            EvalFault::Format => FaultKind::Format,
            EvalFault::Select => FaultKind::Select,
            EvalFault::NotInPackage => FaultKind::NotInPackage,
            EvalFault::NoAttribute => FaultKind::NoAttribute,
            EvalFault::MissingAttribute => FaultKind::MissingAttribute,
            EvalFault::AttributeType => FaultKind::AttributeType,
            EvalFault::DoubleTarget => FaultKind::DoubleTarget,
            EvalFault::BadName => FaultKind::BadName,
            EvalFault::GlobEmpty => FaultKind::GlobEmpty,
            EvalFault::GlobPattern => FaultKind::GlobPattern,
            EvalFault::BadLabel => FaultKind::BadLabel,
        }
    }

    /// The number after the `F`.
    pub fn number(self) -> u32
        ensures { result ≡ eval_fault_number self }
    {
        self.kind().number()
    }
}

/// A fault of a file: of one stage, or, where `K` is [`FaultKind`], of any.
#[derive(Debug, Drop)]
pub struct Fault<K> {
    pub kind: K,
    /// The line that the fault names, from 1; 0 from a call that knows no line.
    pub line: u32,
    /// The name, label or symbol that the fault is about; empty for most.
    pub detail: Bytes,
}

impl<K: Copy> Fault<K> {
    /// A fault without detail.
    pub fn at(kind: K, line: u32) -> Fault<K>
        ensures { result ≡ fault_at kind line }
    {
        Fault {
            kind,
            line,
            detail: Bytes::empty(),
        }
    }

    /// This fault, as one of another kind.
    pub fn with_kind<J>(self, kind: J) -> Fault<J>
        ensures { result ≡ record { kind = kind; line = self.line; detail = self.detail } }
    {
        Fault {
            kind,
            line: self.line,
            detail: self.detail,
        }
    }
}

/// Why a call on a source file has no answer.
#[derive(Debug, Drop)]
pub enum SourceErr<K> {
    /// The file is faulty.
    Bad(Fault<K>),
    /// Memory was refused. It says nothing of the file.
    Memory,
}

impl<K> From<AllocError> for SourceErr<K> {
    ghost from_gives = { λ _ e. e ≡ Memory };

    fn from(_: AllocError) -> Self {
        SourceErr::Memory
    }
}

impl<K, T: Drop> From<AllocFailed<T>> for SourceErr<K> {
    ghost from_gives = { λ _ e. e ≡ Memory };

    fn from(_: AllocFailed<T>) -> Self {
        SourceErr::Memory
    }
}

impl From<SourceErr<TokenFault>> for SourceErr<FaultKind> {
    ghost from_gives = { λ e joined. joined ≡ err_as kind_of_token e };

    fn from(e: SourceErr<TokenFault>) -> Self {
        match e {
            SourceErr::Bad(why) => {
                let kind = why.kind.kind();
                SourceErr::Bad(why.with_kind(kind))
            }
            SourceErr::Memory => SourceErr::Memory,
        }
    }
}

impl From<SourceErr<StatementFault>> for SourceErr<FaultKind> {
    ghost from_gives = { λ e joined. joined ≡ err_as kind_of_statement e };

    fn from(e: SourceErr<StatementFault>) -> Self {
        match e {
            SourceErr::Bad(why) => {
                let kind = why.kind.kind();
                SourceErr::Bad(why.with_kind(kind))
            }
            SourceErr::Memory => SourceErr::Memory,
        }
    }
}

impl From<SourceErr<NameFault>> for SourceErr<FaultKind> {
    ghost from_gives = { λ e joined. joined ≡ err_as kind_of_name e };

    fn from(e: SourceErr<NameFault>) -> Self {
        match e {
            SourceErr::Bad(why) => {
                let kind = why.kind.kind();
                SourceErr::Bad(why.with_kind(kind))
            }
            SourceErr::Memory => SourceErr::Memory,
        }
    }
}

impl From<SourceErr<LoadFault>> for SourceErr<FaultKind> {
    ghost from_gives = { λ e joined. joined ≡ err_as kind_of_load e };

    fn from(e: SourceErr<LoadFault>) -> Self {
        match e {
            SourceErr::Bad(why) => {
                let kind = why.kind.kind();
                SourceErr::Bad(why.with_kind(kind))
            }
            SourceErr::Memory => SourceErr::Memory,
        }
    }
}
