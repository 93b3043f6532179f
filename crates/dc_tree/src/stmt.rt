//! Statements and their parts.

use crate::expr::Expr;
use dc_int::ReduceOp;
use dc_text::{DcList, DcText};

/// The type of a declaration or of a loop's indexes. `keyed` says that `kind =` is written.
#[derive(Drop)]
pub enum TypeSpec {
    Logical,
    Integer { keyed: bool, selector: Option<Expr> },
}

/// The bounds of one dimension. An absent `low` is 1.
#[derive(Drop)]
pub struct Bound {
    pub low: Option<Expr>,
    pub high: Expr,
}

/// INTENT(IN), INTENT(OUT), INTENT(INOUT), and INTENT(IN OUT) as two words.
#[derive(Clone, Copy, Debug, PartialEq, Eq)]
pub enum Intent {
    Into,
    Out,
    InOut,
    InOutApart,
}

#[derive(Drop)]
pub enum Attr {
    Parameter,
    Dimension(DcList<Bound>),
    Intent(Intent),
}

/// What follows `=` in a declaration.
#[derive(Drop)]
pub enum Init {
    Absent,
    Scalar(Expr),
    Listed(DcList<Expr>),
}

/// One name of a declaration. Absent `bounds` are a scalar, unless an attribute gives some.
#[derive(Drop)]
pub struct Entity {
    pub name: DcText,
    pub bounds: Option<DcList<Bound>>,
    pub init: Init,
}

/// One index of a DO CONCURRENT header.
#[derive(Drop)]
pub struct Index {
    pub name: DcText,
    pub first: Expr,
    pub last: Expr,
    pub step: Option<Expr>,
}

/// One locality specification, of clause 11.1.7.5.
#[derive(Drop)]
pub enum Local {
    Locals(DcList<DcText>),
    Inits(DcList<DcText>),
    Shared(DcList<DcText>),
    Reduce(ReduceOp, DcList<DcText>),
    DefaultNone,
}

/// One range of a CASE statement: a value, from a value on, up to a value, or between two.
#[derive(Drop)]
pub enum Range {
    One(Expr),
    From(Expr),
    To(Expr),
    Both(Expr, Expr),
}

/// One word, or the type, in front of FUNCTION or SUBROUTINE.
#[derive(Drop)]
pub enum Prefix {
    Pure,
    Recursive,
    Typed(TypeSpec),
}

/// How USE is written: `use m`, `use :: m`, or `use, intrinsic :: m`.
#[derive(Clone, Copy, Debug, PartialEq, Eq)]
pub enum UseForm {
    Plain,
    Colons,
    Intrinsic,
}

/// What an END statement names.
#[derive(Clone, Copy, Debug, PartialEq, Eq)]
pub enum Unit {
    Program,
    Function,
    Subroutine,
}

/// What an assignment defines or a READ statement reads. Absent subscripts are the whole variable.
#[derive(Drop)]
pub struct Target {
    pub name: DcText,
    pub subscripts: Option<DcList<Expr>>,
}

/// The variable and limits of a counted DO.
#[derive(Drop)]
pub struct Counted {
    pub name: DcText,
    pub first: Expr,
    pub last: Expr,
    pub step: Option<Expr>,
}

/// A statement that an IF statement may hold too.
#[derive(Drop)]
pub enum Action {
    Assign {
        left: Target,
        right: Expr,
    },
    /// A whole array is assigned the items of a list in brackets.
    Fill {
        name: DcText,
        items: DcList<Expr>,
    },
    /// `brackets` says that the name is followed by brackets, which may be empty.
    Call {
        name: DcText,
        brackets: bool,
        args: DcList<Expr>,
    },
    Cycle(Option<DcText>),
    Exit(Option<DcText>),
    Return,
    Continue,
    Stop,
    ErrorStop,
    /// `written` says that it is spelled as WRITE.
    Print {
        written: bool,
        items: DcList<Expr>,
    },
    /// `bracketed` says that it is spelled as `read (*, *)`.
    Read {
        bracketed: bool,
        items: DcList<Target>,
    },
}

#[derive(Drop)]
pub enum Stmt {
    Program(DcText),
    Use {
        form: UseForm,
        module: DcText,
        only: DcList<DcText>,
    },
    ImplicitNone,
    Declare {
        spec: TypeSpec,
        attrs: DcList<Attr>,
        colons: bool,
        entities: DcList<Entity>,
    },
    Contains,
    /// The first line of a function or a subroutine.
    Procedure {
        prefix: DcList<Prefix>,
        function: bool,
        name: DcText,
        brackets: bool,
        dummies: DcList<DcText>,
        result: Option<DcText>,
    },
    End {
        unit: Option<Unit>,
        name: Option<DcText>,
    },
    IfThen(Expr),
    ElseIf(Expr),
    Else,
    EndIf,
    IfAction {
        test: Expr,
        action: Action,
    },
    Select(Expr),
    Case(DcList<Range>),
    CaseDefault,
    EndSelect,
    /// A DO without limits goes on until EXIT.
    Do {
        label: Option<DcText>,
        counted: Option<Counted>,
    },
    DoWhile {
        label: Option<DcText>,
        test: Expr,
    },
    Concurrent {
        label: Option<DcText>,
        spec: Option<TypeSpec>,
        indexes: DcList<Index>,
        mask: Option<Expr>,
        locality: DcList<Local>,
    },
    EndDo(Option<DcText>),
    Act(Action),
}
