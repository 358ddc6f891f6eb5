//! The laws of expressions: what is computed of one is exact by the relations of fitting, and what fits by names is well typed by the tree
//! (BS 5904, expressions and modes). There is no code here but functions that do nothing, whose contracts are the laws.
//!
//! `specs/Exact.antt` says what exact is. `specs/Agreeing.antt` says where names and a tree's scope agree: what each name stands for is
//! there, with its mode; `specs/Laws.antt` has the law of typing.
#![tactic(auto)]

mod laws;

pub use laws::{what_fits_is_typed, what_is_computed_is_exact};
