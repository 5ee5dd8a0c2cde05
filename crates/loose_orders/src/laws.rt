//! Laws of orders by the rule that kernels keep.
ghost use Rattle.loose_orders.specs.Laws.{OrdersKeepTheRule};
ghost use Rattle.loose_orders.specs.Timely.{TimelyOrders};

/// Calls that have an order, each at one moment, have one by the rule that kernels keep.
pub fn orders_keep_the_rule()
    ensures { OrdersKeepTheRule }
{}

/// Without the accesses that may be late, calls that have an order by the rule that kernels keep have one at one
/// moment.
pub fn timely_orders()
    ensures { TimelyOrders }
{}
