//! `AnyOrder`: the path ordering or the ordering by weights, and that of a specification.

ghost use Rattle.std.specs.Prelude.{◌≡◌, IfOk};
ghost use Rattle.spec_core.specs.Orders.{IsOrderOf};
ghost use Rattle.spec_order.specs.Orders.{order_of};

use kbo_order::Kbo;
use path_order::Lpo;
use spec_core::{OrderInfo, Spec};
use std::alloc::Global;
use term_core::{OutOfMemory, Term};
use term_order::TermOrder;

/// The path ordering, or that of Knuth and Bendix.
#[derive(Drop)]
pub enum AnyOrder {
    Path(Lpo),
    Weights(Kbo),
}

impl AnyOrder {
    /// The order that the specification names, in memory of its own.
    pub fn of(alloc: Global, spec: &Spec) -> Result<AnyOrder, OutOfMemory>
        requires { IsOrderOf spec.now.sig spec.now.order }
        ensures { IfOk result (λ order. order ≡ order_of spec.now) }
    {
        let order = spec.order.copy(alloc)?;
        Ok(match order {
            OrderInfo::Path { levels, statuses } => AnyOrder::Path(Lpo::with(levels, statuses)),
            OrderInfo::Weights { weights } => AnyOrder::Weights(Kbo::new(weights)),
        })
    }
}

impl TermOrder for AnyOrder {
    ghost use Rattle.spec_order.specs.Orders.{above_by};
    ghost use Rattle.spec_order.specs.Ranks.{rank_by};
    ghost use Rattle.spec_order.specs.Laws.{order_laws, order_ranks};

    ghost above = { above_by };

    ghost rank = { rank_by };

    fn greater(&self, t: &Term, s: &Term) -> bool {
        match self {
            AnyOrder::Path(lpo) => lpo.greater(t, s),
            AnyOrder::Weights(kbo) => kbo.greater(t, s),
        }
    }

    fn greater_under(&self, list: &[&Term], t: &Term, s: &Term) -> bool {
        match self {
            AnyOrder::Path(lpo) => lpo.greater_under(list, t, s),
            AnyOrder::Weights(kbo) => kbo.greater_under(list, t, s),
        }
    }

    ghost laws = { order_laws };

    ghost ranks = { order_ranks };
}
