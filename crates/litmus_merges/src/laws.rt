//! What follows from the definitions in specs/.
ghost use Rattle.litmus_merges.specs.Finals.{LoadsShow};
ghost use Rattle.litmus_merges.specs.Laws.{ClosedListsHaveAllEnds, OrdersAreMerges, TurnsLeadToOnePoint};

/// Where no call leaves a place open, a turn of a call leads from a point to one other alone: its reply and the map after it
/// are known.
pub fn turns_lead_to_one_point()
    ensures { TurnsLeadToOnePoint }
{}

/// The turns of calls, named one after another, are a merge, and each merge has such an order.
pub fn orders_are_merges()
    ensures { OrdersAreMerges }
{}

/// A list of points that has the first one, and with each point those that its turns lead to, has each point at which a merge
/// ends. So such a list, however it was found, shows which combinations of replies there are, and that there is no other.
pub fn closed_lists_have_all_ends()
    ensures { ClosedListsHaveAllEnds }
{}

/// Loads alone change nothing: the replies that loads of some addresses by one core can have are what they show on the map as it
/// stands.
pub fn loads_show()
    ensures { LoadsShow }
{}
