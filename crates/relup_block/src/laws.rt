//! Laws of blocks, above their definition. Each function does nothing: its contract is the law.
ghost use Rattle.relup_block.specs.Laws.{MakesOrders, OrdersUp, OrdersDown, ResumesSuspended, LoadsBeforeChange, ChangesBeforeLoad, SuspendsMeanwhile};

/// An order of a block has its items, each once. Where the dependencies among them have no cycle, each item stands after all
/// those that it waits for.
pub fn an_order_follows_dependencies_without_a_cycle()
    ensures { MakesOrders }
{}

/// Going up, what depends on others is suspended first, and loaded and changed last. Each update is suspended once, the module
/// of each item loaded once, and the state of each advanced update changed once.
pub fn going_up_dependents_are_suspended_first_and_loaded_last()
    ensures { OrdersUp }
{}

/// Going down, what depends on others is suspended last, and loaded and changed first: static updates first of all loads.
pub fn going_down_dependents_are_suspended_last_and_loaded_first()
    ensures { OrdersDown }
{}

/// The processes that a block suspends it resumes, the last first.
pub fn the_suspended_are_resumed()
    ensures { ResumesSuspended }
{}

/// Going up, all modules are loaded before states are changed, as for an upgrade.
pub fn going_up_loads_before_it_changes()
    ensures { LoadsBeforeChange }
{}

/// Going down, states are changed, as for a downgrade, before modules are loaded; those of static updates alone are loaded before.
pub fn going_down_changes_before_it_loads()
    ensures { ChangesBeforeLoad }
{}

/// While modules are loaded and states are changed, the modules of all updates are suspended.
pub fn all_updates_are_suspended_meanwhile()
    ensures { SuspendsMeanwhile }
{}
