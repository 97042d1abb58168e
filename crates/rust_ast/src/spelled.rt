// Made by tools/code.py from tools/rust_ast.desc.py.
use crate::spelled_patterns::Pat;
use aen_base::{BinOp, Boxed, Builtin, CmpOp, IntTy, List, Num, Span, TypeId};
use core_ty::Ty;
use std::marker::Model;

/// An expression that gives a value.
#[cycle(spelled)]
pub struct Val {
    pub node: ValNode,
}

impl Drop for Val {
    #[cycle(dropping_spelled)]
    fn drop(self) {
        let Val { node: _ } = self;
    }
}

/// The forms of `Val`.
#[cycle(spelled)]
#[derive(Drop)]
pub enum ValNode {
    /// Its type, whether it has every type since it never gives one, its span, and what it is.
    Value(Ty, bool, Span, Boxed<Form>),
}

/// What is called.
pub struct Callee {
    pub node: CalleeNode,
}

impl Drop for Callee {
    fn drop(self) {
        let Callee { node: _ } = self;
    }
}

/// The forms of `Callee`.
#[derive(Drop)]
pub enum CalleeNode {
    /// A function, by its number.
    Function(u32),
    /// A built-in function.
    BuiltinOf(Builtin),
}

/// What a value is.
#[cycle(spelled)]
pub struct Form {
    pub node: FormNode,
}

impl Drop for Form {
    #[cycle(dropping_spelled)]
    fn drop(self) {
        let Form { node } = self;
        match node {
            FormNode::Number(_) => {}
            FormNode::Truth(_) => {}
            FormNode::Tuple(_tuple) => {}
            FormNode::Construct(_, _, _construct) => {}
            FormNode::UseOf(_, _) => {}
            FormNode::FieldOf(_, _, _) => {}
            FormNode::UnboxOf(_, _) => {}
            FormNode::Borrow(_, _) => {}
            FormNode::Minus(_) => {}
            FormNode::Negation(_) => {}
            FormNode::Binary(_, _, _) => {}
            FormNode::Compare(_, _, _) => {}
            FormNode::Cast(_, _) => {}
            FormNode::Both(_, _) => {}
            FormNode::Either(_, _) => {}
            FormNode::Call(_, _, _call) => {}
            FormNode::Assign(_, _) => {}
            FormNode::Update(_, _, _, _) => {}
            FormNode::Inner(_) => {}
            FormNode::Select(_, _select) => {}
            FormNode::Forever(_, _, _, _) => {}
            FormNode::Leave(_, _) => {}
            FormNode::GoOn(_) => {}
            FormNode::Give(_) => {}
            FormNode::Panic => {}
        }
    }
}

/// The forms of `Form`.
#[cycle(spelled)]
#[derive(Drop)]
pub enum FormNode {
    /// An integer with its type.
    Number(Num),
    /// `true` or `false`.
    Truth(bool),
    /// A tuple of these parts, or `()`.
    Tuple(List<Val>),
    /// A variant of a declared type, of a struct the variant 0: the parts in written order with the numbers of their fields.
    Construct(TypeId, u32, List<(u32, Val)>),
    /// What stands at a place, copied where true, else moved.
    UseOf(Boxed<Place>, bool),
    /// A field of a value that stands at no place, copied where true, else moved.
    FieldOf(Boxed<Val>, u32, bool),
    /// What is in a box that stands at no place, copied where true, else moved.
    UnboxOf(Boxed<Val>, bool),
    /// `&` of a place, or `&mut` where true.
    Borrow(bool, Boxed<Place>),
    /// `-`.
    Minus(Boxed<Val>),
    /// `!`.
    Negation(Boxed<Val>),
    /// An operator on two numbers or bools.
    Binary(BinOp, Boxed<Val>, Boxed<Val>),
    /// A comparison.
    Compare(CmpOp, Boxed<Val>, Boxed<Val>),
    /// `as`.
    Cast(Boxed<Val>, IntTy),
    /// `&&`.
    Both(Boxed<Val>, Boxed<Val>),
    /// `||`.
    Either(Boxed<Val>, Boxed<Val>),
    /// A call with its type arguments.
    Call(Callee, List<Ty>, List<Val>),
    /// `=`.
    Assign(Boxed<Place>, Boxed<Val>),
    /// An operator with `=`: the type of the place, which a shift's value needn't have.
    Update(Ty, BinOp, Boxed<Place>, Boxed<Val>),
    /// A block.
    Inner(Boxed<Block>),
    /// `match`, and `if` as a `match` on a bool: the scrutinee, and the arms in order.
    Select(Boxed<Scrutinee>, List<(Pat, Val)>),
    /// A loop: its number in the function, whether it is written with `while`, whether it has a `break`, and its body.
    Forever(u32, bool, bool, Boxed<Block>),
    /// `break` of the loop with this number.
    Leave(u32, Option<Boxed<Val>>),
    /// `continue` of the loop with this number.
    GoOn(u32),
    /// `return`.
    Give(Option<Boxed<Val>>),
    /// `panic!`.
    Panic,
}

/// A place. What uses it has its type and its span.
#[cycle(spelled)]
pub struct Place {
    pub node: PlaceNode,
}

impl Drop for Place {
    #[cycle(dropping_spelled)]
    fn drop(self) {
        let Place { node: _ } = self;
    }
}

/// The forms of `Place`.
#[cycle(spelled)]
#[derive(Drop)]
pub enum PlaceNode {
    /// A variable, by its number.
    Variable(u32),
    /// A field of a place, by its number.
    Field(Boxed<Place>, u32),
    /// What is in the box at a place.
    Unbox(Boxed<Place>),
    /// What the reference at a place leads to.
    Through(Boxed<Place>),
    /// What a reference that stands at no place leads to.
    ThroughValue(Boxed<Val>),
}

/// What a `match` looks at.
#[cycle(spelled)]
pub struct Scrutinee {
    pub node: ScrutineeNode,
}

impl Drop for Scrutinee {
    #[cycle(dropping_spelled)]
    fn drop(self) {
        let Scrutinee { node: _ } = self;
    }
}

/// The forms of `Scrutinee`.
#[cycle(spelled)]
#[derive(Drop)]
pub enum ScrutineeNode {
    /// A place, with its type and span.
    Stands(Ty, Span, Boxed<Place>),
    /// A value.
    Held(Boxed<Val>),
}

/// A statement.
#[cycle(spelled)]
pub struct Stmt {
    pub node: StmtNode,
}

impl Drop for Stmt {
    #[cycle(dropping_spelled)]
    fn drop(self) {
        let Stmt { node: _ } = self;
    }
}

/// The forms of `Stmt`.
#[cycle(spelled)]
#[derive(Drop)]
pub enum StmtNode {
    /// A value that is passed over.
    Run(Boxed<Val>),
    /// `let` of one name: its span, the variable, the value.
    Put(Span, u32, Boxed<Val>),
    /// `let _`: its span, the value.
    Pass(Span, Boxed<Val>),
    /// `let` of any other pattern: its span, what it looks at, the pattern.
    OpenUp(Span, Boxed<Scrutinee>, Pat),
    /// `let` without a value: its span, the variables in order.
    Later(Span, List<u32>),
}

/// A block.
#[cycle(spelled)]
pub struct Block {
    pub node: BlockNode,
}

impl Drop for Block {
    #[cycle(dropping_spelled)]
    fn drop(self) {
        let Block { node } = self;
        match node {
            BlockNode::Block(_, _, _, _block, _) => {}
        }
    }
}

/// The forms of `Block`.
#[cycle(spelled)]
#[derive(Drop)]
pub enum BlockNode {
    /// Its type, whether it has every type, its span, the statements, and the last value, which it gives.
    Block(Ty, bool, Span, List<Stmt>, Option<Boxed<Val>>),
}

impl Model for Val {
    ghost use Rattle.rust_ast.specs.Spelled.{Val, coded_val, nodes_val};

    ghost Value = { Val };

    ghost coded = { coded_val };

    ghost use Rattle.rust_ast.specs.SpelledView.{val_of};

    ghost view = { λ e. val_of e.node };

    ghost size = { nodes_val };

    ghost use Rattle.std.proofs.Common.{arith};
    ghost use Rattle.rust_ast.specs.SpelledFalls.{val_falls};

    ghost size_decreases = { λ a h. Prim.omega (arith, val_falls a.node) };
}

impl Val {
    ghost use Rattle.std.specs.Prelude.{◌≡◌};
    ghost use Rattle.rust_ast.specs.SpelledView.{val_of};

    /// The form, taken out.
    pub fn into_node(self) -> ValNode
        ensures { val_of result ≡ self }
    {
        let Val { node } = self;
        node
    }
}

impl Model for Callee {
    ghost use Rattle.rust_ast.specs.Spelled.{Callee, coded_callee};

    ghost Value = { Callee };

    ghost coded = { coded_callee };

    ghost use Rattle.rust_ast.specs.SpelledView.{callee_of};

    ghost view = { λ e. callee_of e.node };
}

impl Callee {
    ghost use Rattle.std.specs.Prelude.{◌≡◌};
    ghost use Rattle.rust_ast.specs.SpelledView.{callee_of};

    /// The form, taken out.
    pub fn into_node(self) -> CalleeNode
        ensures { callee_of result ≡ self }
    {
        let Callee { node } = self;
        node
    }
}

impl Model for Form {
    ghost use Rattle.rust_ast.specs.Spelled.{Form, coded_form, nodes_form};

    ghost Value = { Form };

    ghost coded = { coded_form };

    ghost use Rattle.rust_ast.specs.SpelledView.{form_of};

    ghost view = { λ e. form_of e.node };

    ghost size = { nodes_form };

    ghost use Rattle.std.proofs.Common.{arith};
    ghost use Rattle.rust_ast.specs.SpelledFalls.{form_falls};

    ghost size_decreases = { λ a h. Prim.omega (arith, form_falls a.node) };
}

impl Form {
    ghost use Rattle.std.specs.Prelude.{◌≡◌};
    ghost use Rattle.rust_ast.specs.SpelledView.{form_of};

    /// The form, taken out.
    pub fn into_node(self) -> FormNode
        ensures { form_of result ≡ self }
    {
        let Form { node } = self;
        node
    }
}

impl Model for Place {
    ghost use Rattle.rust_ast.specs.Spelled.{Place, coded_place, nodes_place};

    ghost Value = { Place };

    ghost coded = { coded_place };

    ghost use Rattle.rust_ast.specs.SpelledView.{place_of};

    ghost view = { λ e. place_of e.node };

    ghost size = { nodes_place };

    ghost use Rattle.std.proofs.Common.{arith};
    ghost use Rattle.rust_ast.specs.SpelledFalls.{place_falls};

    ghost size_decreases = { λ a h. Prim.omega (arith, place_falls a.node) };
}

impl Place {
    ghost use Rattle.std.specs.Prelude.{◌≡◌};
    ghost use Rattle.rust_ast.specs.SpelledView.{place_of};

    /// The form, taken out.
    pub fn into_node(self) -> PlaceNode
        ensures { place_of result ≡ self }
    {
        let Place { node } = self;
        node
    }
}

impl Model for Scrutinee {
    ghost use Rattle.rust_ast.specs.Spelled.{Scrutinee, coded_scrutinee, nodes_scrutinee};

    ghost Value = { Scrutinee };

    ghost coded = { coded_scrutinee };

    ghost use Rattle.rust_ast.specs.SpelledView.{scrutinee_of};

    ghost view = { λ e. scrutinee_of e.node };

    ghost size = { nodes_scrutinee };

    ghost use Rattle.std.proofs.Common.{arith};
    ghost use Rattle.rust_ast.specs.SpelledFalls.{scrutinee_falls};

    ghost size_decreases = { λ a h. Prim.omega (arith, scrutinee_falls a.node) };
}

impl Scrutinee {
    ghost use Rattle.std.specs.Prelude.{◌≡◌};
    ghost use Rattle.rust_ast.specs.SpelledView.{scrutinee_of};

    /// The form, taken out.
    pub fn into_node(self) -> ScrutineeNode
        ensures { scrutinee_of result ≡ self }
    {
        let Scrutinee { node } = self;
        node
    }
}

impl Model for Stmt {
    ghost use Rattle.rust_ast.specs.Spelled.{Stmt, coded_stmt, nodes_stmt};

    ghost Value = { Stmt };

    ghost coded = { coded_stmt };

    ghost use Rattle.rust_ast.specs.SpelledView.{stmt_of};

    ghost view = { λ e. stmt_of e.node };

    ghost size = { nodes_stmt };

    ghost use Rattle.std.proofs.Common.{arith};
    ghost use Rattle.rust_ast.specs.SpelledFalls.{stmt_falls};

    ghost size_decreases = { λ a h. Prim.omega (arith, stmt_falls a.node) };
}

impl Stmt {
    ghost use Rattle.std.specs.Prelude.{◌≡◌};
    ghost use Rattle.rust_ast.specs.SpelledView.{stmt_of};

    /// The form, taken out.
    pub fn into_node(self) -> StmtNode
        ensures { stmt_of result ≡ self }
    {
        let Stmt { node } = self;
        node
    }
}

impl Model for Block {
    ghost use Rattle.rust_ast.specs.Spelled.{Block, coded_block, nodes_block};

    ghost Value = { Block };

    ghost coded = { coded_block };

    ghost use Rattle.rust_ast.specs.SpelledView.{block_of};

    ghost view = { λ e. block_of e.node };

    ghost size = { nodes_block };

    ghost use Rattle.std.proofs.Common.{arith};
    ghost use Rattle.rust_ast.specs.SpelledFalls.{block_falls};

    ghost size_decreases = { λ a h. Prim.omega (arith, block_falls a.node) };
}

impl Block {
    ghost use Rattle.std.specs.Prelude.{◌≡◌};
    ghost use Rattle.rust_ast.specs.SpelledView.{block_of};

    /// The form, taken out.
    pub fn into_node(self) -> BlockNode
        ensures { block_of result ≡ self }
    {
        let Block { node } = self;
        node
    }
}
