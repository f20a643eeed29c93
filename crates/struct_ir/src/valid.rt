ghost use Rattle.std.specs.Prelude.{◌≡◌, ◌&&◌, ◌==◌, map, count_by, slice_get};
ghost use Rattle.std.specs.List.{list_all, list_any};
ghost use Rattle.c_tree.specs.TypedForm.{is_comparison};
ghost use Rattle.c_tree.specs.TypedViews.{piece_view};
ghost use Rattle.c_tree.specs.TypedPrinting.{takes_number, takes_text};
ghost use Rattle.struct_ir.specs.Nodes.{may_wait};
ghost use Rattle.struct_ir.specs.Views.{place_view, calc_view, action_view, step_view, call_view, node_view, nodes_view, func_view};
ghost use Rattle.struct_ir.specs.WholeViews.{ir_view};
ghost use Rattle.struct_ir.specs.Valid.{Scope, are_below, is_below_if, is_distinct, is_list, is_promoted, is_calc, is_place, has_params, counts_of, has_counts, has_width, is_piece, is_action, is_own_list, is_step, is_call, body_of, latch_of, outside, is_node, are_nodes, scope_of};
ghost use Rattle.struct_ir.specs.Valid as valid;
ghost use Rattle.struct_ir.specs.inner.Rising.{rises_from};
ghost use Rattle.struct_ir.specs.ValidViews.{scope_view, counts_view, around_view};

use crate::code::{Action, Calc, CallNode, IrFunc, Node, NodeKind, Place, StepNode};
use crate::ir::Ir;
use crate::scope::{Around, Counts, Scope};
use ak_words::{IntType, Op};
use c_tree::typed::Piece;

/// Whether structured code is valid: each number is in range, operations are on promoted types, a
/// call has as many arguments as its function has parameters, a started function has one, printf's
/// numbers have 32 or 64 bits, as those that are changed or compared do, a step has just what its
/// action takes, each Break and Next stands in its loop, and no list names a slot twice.
pub fn is_valid(ir: &Ir) -> bool
    ensures { result ≡ valid.is_valid (ir_view ir.now) }
{
    for f in &ir.funcs {
        if !is_func(ir, f) {
            return false;
        }
    }
    true
}

fn is_func(ir: &Ir, f: &IrFunc) -> bool
    ensures { result ≡ are_nodes (scope_of (ir_view ir.now) (func_view f.now)) outside (func_view f.now).nodes }
{
    let x = scope(ir, f);
    let outside = Around {
        in_loop: false,
        in_body: false,
    };
    are_nodes(&x, outside, &f.nodes)
}

/// What the nodes of a function of the program may name.
pub fn scope<'a>(ir: &'a Ir, f: &IrFunc) -> Scope<'a>
    ensures { scope_view result ≡ scope_of (ir_view ir.now) (func_view f.now) }
{
    Scope {
        temps: f.temps,
        slots: f.slots,
        objects: f.objects.len(),
        globals: ir.globals.len(),
        literals: ir.literals.len(),
        funcs: &ir.funcs,
    }
}

#[cycle(valid)]
fn are_nodes(x: &Scope, around: Around, nodes: &[Node]) -> bool
    ensures { result ≡ are_nodes (scope_view x.now) (around_view around) (nodes_view nodes.now) }
{
    for n in nodes {
        if !is_node(x, around, n) {
            return false;
        }
    }
    true
}

/// Whether a node is valid there, with all nodes inside it.
#[cycle(valid)]
pub fn is_node(x: &Scope, around: Around, n: &Node) -> bool
    ensures { result ≡ is_node (scope_view x.now) (around_view around) (node_view n.now) }
{
    match &n.kind {
        NodeKind::Set(to, calc) => *to < x.temps && is_calc(x, calc),
        NodeKind::If(temp, one, other) => {
            let first = are_nodes(x, around, one);
            all_of(*temp < x.temps, first, are_nodes(x, around, other))
        }
        NodeKind::Loop(body, step) => {
            let first = are_nodes(x, in_body(), body);
            all_of(true, first, are_nodes(x, in_latch(), step))
        }
        NodeKind::Break => around.in_loop,
        NodeKind::Next => around.in_body,
        NodeKind::Call(c) => is_call(x, c),
        NodeKind::Ret(temp) => is_below_if(x.temps, *temp),
        NodeKind::Step(s) => is_step(x, s),
        NodeKind::Look(slot, base) => *slot < x.slots && *base < x.temps,
        NodeKind::Safepoint(slots) => is_list(x, slots),
        NodeKind::Begin(i) => (*i as usize) < x.objects,
        NodeKind::End(i) => (*i as usize) < x.objects,
    }
}

fn all_of(a: bool, b: bool, c: bool) -> bool
    ensures { result ≡ (a && (b && c)) }
{
    a && (b && c)
}

/// In a loop's body, where both a Break and a Next may stand.
pub fn in_body() -> Around
    ensures { around_view result ≡ body_of }
{
    Around {
        in_loop: true,
        in_body: true,
    }
}

/// In a loop's step, where a Break may stand.
pub fn in_latch() -> Around
    ensures { around_view result ≡ latch_of }
{
    Around {
        in_loop: true,
        in_body: false,
    }
}

fn is_below_if(n: u32, value: Option<u32>) -> bool
    ensures { result ≡ is_below_if n value }
{
    match value {
        None => true,
        Some(x) => x < n,
    }
}

fn are_below(n: u32, list: &[u32]) -> bool
    ensures { result ≡ are_below n list.now }
{
    list.iter().all(|x| *x < n)
}

fn is_among(x: u32, list: &[u32]) -> bool
    ensures { result ≡ list_any (λ y. y == x) list.now }
{
    list.iter().any(|y| *y == x)
}

// Each number is above the one before it, and the first above this one.
fn rises_from(low: u32, list: &[u32]) -> bool
    ensures { result ≡ rises_from low list.now }
{
    let mut last = low;
    for x in list {
        if *x <= last {
            return false;
        }
        last = *x;
    }
    true
}

// No number stands twice.
fn is_distinct(list: &[u32]) -> bool
    ensures { result ≡ is_distinct list.now }
{
    match list {
        [] => true,
        [first, rest @ ..] => rises_from(*first, rest) || is_each_once(list),
    }
}

// The same, by a look for each number behind it.
fn is_each_once(list: &[u32]) -> bool
    ensures { result ≡ is_distinct list.now }
{
    for (i, x) in list.iter().enumerate() {
        if is_among(*x, &list[i + 1..]) {
            return false;
        }
    }
    true
}

fn is_list(x: &Scope, slots: &[u32]) -> bool
    ensures { result ≡ is_list (scope_view x.now) slots.now }
{
    are_below(x.slots, slots) && is_distinct(slots)
}

fn is_promoted(t: IntType) -> bool
    ensures { result ≡ is_promoted t }
{
    t.bits == 32 || t.bits == 64
}

fn is_comparison(op: Op) -> bool
    ensures { result ≡ is_comparison op }
{
    match op {
        Op::Eq | Op::Ne | Op::Lt | Op::Le | Op::Gt | Op::Ge => true,
        _ => false,
    }
}

fn is_calc(x: &Scope, calc: &Calc) -> bool
    ensures { result ≡ is_calc (scope_view x.now) (calc_view calc.now) }
{
    match calc {
        Calc::Num(..) | Calc::Unset | Calc::Null => true,
        Calc::Global(n) => (*n as usize) < x.globals,
        Calc::Literal(n) => (*n as usize) < x.literals,
        Calc::Object(n) => (*n as usize) < x.objects,
        Calc::Copy(t) | Calc::Convert(_, t) | Calc::PtrTest(t) => *t < x.temps,
        Calc::Apply(_, t, a, b) => is_promoted(*t) && (*a < x.temps && *b < x.temps),
        Calc::PtrAdd(p, n, _) | Calc::PtrSub(p, n, _) | Calc::PtrDiff(p, n, _) => {
            *p < x.temps && *n < x.temps
        }
        Calc::PtrCompare(op, p, q) => is_comparison(*op) && (*p < x.temps && *q < x.temps),
    }
}

fn is_place(x: &Scope, a: &Place) -> bool
    ensures { result ≡ is_place (scope_view x.now) (place_view a.now) }
{
    a.base < x.temps && (is_below_if(x.temps, a.index) && is_below_if(x.slots, a.slot))
}

fn are_places(x: &Scope, places: &[Place]) -> bool
    ensures { result ≡ list_all (is_place (scope_view x.now)) (map place_view places.now) }
{
    for a in places {
        if !is_place(x, a) {
            return false;
        }
    }
    true
}

// The function of this number has so many parameters.
fn has_params(x: &Scope, function: u32, n: usize) -> bool
    ensures { result ≡ has_params (slice_get (scope_view x.now).params function) n }
{
    match x.funcs.get(function as usize) {
        Some(f) => f.params as usize == n,
        None => false,
    }
}

fn is_call(x: &Scope, c: &CallNode) -> bool
    ensures { result ≡ is_call (scope_view x.now) (call_view c.now) }
{
    (is_below_if(x.temps, c.to) && are_below(x.temps, &c.temps))
        && (has_params(x, c.function, c.temps.len()) && is_list(x, &c.slots))
}

// How many pieces take a text.
fn texts(pieces: &[Piece]) -> usize
    ensures { result ≡ count_by takes_text (map piece_view pieces.now) }
{
    pieces.iter().filter(|p| matches!(p, Piece::Text)).count()
}

// How many pieces take a number.
fn numbers(pieces: &[Piece]) -> usize
    ensures { result ≡ count_by takes_number (map piece_view pieces.now) }
{
    pieces
        .iter()
        .filter(|p| !matches!(p, Piece::Text | Piece::Bytes(_)))
        .count()
}

fn counts_of(action: &Action) -> Counts
    ensures { counts_view result ≡ counts_of (action_view action.now) }
{
    match action {
        Action::Load(_) => counts(1, 0, true),
        Action::Store(_) => counts(1, 1, false),
        Action::Copy { .. } => counts(2, 1, false),
        Action::Malloc => counts(0, 1, true),
        Action::Calloc | Action::Realloc => counts(0, 2, true),
        Action::Free => counts(0, 1, false),
        Action::Print(pieces) => counts(texts(pieces), numbers(pieces), true),
        Action::Lock | Action::Unlock | Action::Destroy => counts(1, 0, false),
        Action::Start(_) | Action::Join | Action::Change(..) => counts(1, 1, true),
        Action::Compare(_) => counts(2, 1, true),
    }
}

fn counts(places: usize, temps: usize, gives: bool) -> Counts
    ensures places { result.places ≡ places }
    ensures temps { result.temps ≡ temps }
    ensures gives { result.gives ≡ gives }
{
    Counts {
        places,
        temps,
        gives,
    }
}

fn has_counts(n: Counts, s: &StepNode) -> bool
    ensures { result ≡ has_counts (counts_view n) (step_view s.now) }
{
    s.places.len() == n.places && (s.temps.len() == n.temps && (n.gives || s.to.is_none()))
}

fn has_width(bits: u8) -> bool
    ensures { result ≡ has_width bits }
{
    bits == 32 || bits == 64
}

fn is_piece(piece: &Piece) -> bool
    ensures { result ≡ is_piece (piece_view piece.now) }
{
    match piece {
        Piece::Signed(bits) | Piece::Unsigned(bits) | Piece::Hex(bits) => has_width(*bits),
        Piece::Bytes(_) | Piece::Char | Piece::Text => true,
    }
}

fn are_pieces(pieces: &[Piece]) -> bool
    ensures { result ≡ list_all is_piece (map piece_view pieces.now) }
{
    for piece in pieces {
        if !is_piece(piece) {
            return false;
        }
    }
    true
}

fn is_action(x: &Scope, action: &Action) -> bool
    ensures { result ≡ is_action (scope_view x.now) (action_view action.now) }
{
    match action {
        Action::Start(function) => has_params(x, *function, 1),
        Action::Print(pieces) => are_pieces(pieces),
        Action::Change(_, ty) | Action::Compare(ty) => is_promoted(*ty),
        _ => true,
    }
}

fn is_own_list(x: &Scope, action: &Action, slots: &[u32]) -> bool
    ensures { result ≡ is_own_list (scope_view x.now) (action_view action.now) slots.now }
{
    is_list(x, slots) && (action.may_wait() || slots.len() == 0)
}

fn is_step(x: &Scope, s: &StepNode) -> bool
    ensures { result ≡ is_step (scope_view x.now) (step_view s.now) }
{
    (are_places(x, &s.places) && (are_below(x.temps, &s.temps) && is_below_if(x.temps, s.to)))
        && (has_counts(counts_of(&s.action), s)
            && (is_action(x, &s.action) && is_own_list(x, &s.action, &s.slots)))
}
