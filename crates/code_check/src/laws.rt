//! Laws of the definitions, as the contracts of functions that do nothing.

ghost use Rattle.std.specs.Prelude.{◌≡◌, ◌||◌, ℕ, List, Option};
ghost use Rattle.expr_grammar.specs.Tree.{Tree, StmtTree};
ghost use Rattle.code_check.specs.declared.fault.CodeFault.{CodeFault};
ghost use Rattle.code_check.specs.Order.{is_before};
ghost use Rattle.code_check.specs.First.{IsFirst};
ghost use Rattle.expr_grammar.specs.Names.{has_name};
ghost use Rattle.code_check.specs.ExprFaults.{Scope, ExprFault};
ghost use Rattle.code_check.specs.BlockFaults.{names_after_all, declares, BlockFault};

/// After statements a name is visible exactly where it was before them or where one of them
/// declares it.
#[tactic(auto, using(crate::proofs::Visible::has_name_after))]
pub fn visible_by_declaration()
    ensures { (names : List (List ℕ)) (code : List StmtTree) (name : List ℕ) → has_name (names_after_all names code) name ≡ (has_name names name || declares code name) }
{}

/// An expression has one first fault, or none.
pub fn one_expr_fault()
    ensures { (s : Scope) (e : Tree) (first other : Option CodeFault) → IsFirst is_before (ExprFault s e) first
        → IsFirst is_before (ExprFault s e) other → first ≡ other }
{}

/// Statements have one first fault, or none.
pub fn one_block_fault()
    ensures { (s : Scope) (code : List StmtTree) (first other : Option CodeFault) → IsFirst is_before (BlockFault s code) first
        → IsFirst is_before (BlockFault s code) other → first ≡ other }
{}

/// Each expression has a first fault, or none.
pub fn some_expr_fault()
    ensures { (s : Scope) (e : Tree) → (first : Option CodeFault) × IsFirst is_before (ExprFault s e) first }
{}

/// Each list of statements has a first fault, or none.
pub fn some_block_fault()
    ensures { (s : Scope) (code : List StmtTree) → (first : Option CodeFault) × IsFirst is_before (BlockFault s code) first }
{}
