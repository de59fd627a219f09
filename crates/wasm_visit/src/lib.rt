//! Visitors of operators: their traits, and the functions that call the visit of an operator.
#![tactic(auto)]

mod borrowed;
pub mod dispatch;
mod is_end;
mod made;
mod maker;
mod operator;
mod owned;
mod owned_one_byte;
mod routes;

pub use borrowed::{visit_operator, visit_operator_with_simd};
pub use is_end::IsEndOperatorVisitor;
pub use made::Made;
pub use maker::{HoldOperator, HoldTable, OperatorFactory, OperatorMaker};
pub use operator::VisitOperator;
pub use owned::{visit_owned, visit_owned_simd};
pub use routes::{
    CallAtomic, CallGc, CallMisc, CallNumeric, CallOneByte, CallSimdHigh, CallSimdLow, GroupAtomic,
    GroupGc, GroupMisc, GroupNumeric, GroupOneByte, GroupSimdHigh, GroupSimdLow, RouteAtomic,
    RouteGc, RouteMisc, RouteNumeric, RouteOneByte, RouteSimdHigh, RouteSimdLow,
};
