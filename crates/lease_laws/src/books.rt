//! What follows from the definitions of a history. Each is a function that does nothing: its contract is the law.

ghost use Rattle.lease_laws.specs.Laws.{NamesOneReply, FindsLeastTwin, LeasesLeastTwins, PublishesFirstGood};
ghost use Rattle.lease_laws.specs.Laws.{PublishesOnce, GivesFewLeases, NothingIsLeft, MayGiveUpUnsettled};

/// After one history one reply is named for a request.
pub fn names_one_reply()
    ensures { NamesOneReply }
{}

/// The twin that a book tells of an entry whose board has a deal is the least of its twins: the entries of the same
/// declarer and denomination on boards with the same deal.
pub fn finds_least_twin()
    ensures { FindsLeastTwin }
{}

/// Each lease of a legal history is of an entry that is the least of its twins.
pub fn leases_least_twins()
    ensures { LeasesLeastTwins }
{}

/// A legal history publishes for an entry the number of the first good hand-in for its least twin: the first under a
/// lease that was given for that twin before, that shows a number on their deal. It publishes none where there is none.
pub fn publishes_first_good()
    ensures { PublishesFirstGood }
{}

/// A legal history publishes a number for an entry and its twins once, or never.
pub fn publishes_once()
    ensures { PublishesOnce }
{}

/// A legal history gives no more leases than the tries of all least twins together: twenty for each deal. So who asks
/// for a lease again and again is answered [`Nothing`](lease_book::Reply::Nothing) in the end.
pub fn gives_few_leases()
    ensures { GivesFewLeases }
{}

/// Where a legal history answers a request for a lease with [`Nothing`](lease_book::Reply::Nothing), each entry whose
/// board has a deal has a number, or its least twin is leased at that moment, or was leased as often as it may be.
pub fn nothing_is_left()
    ensures { NothingIsLeft }
{}

/// A lease that is held, and that was neither given up nor handed in under, may be given up: then still no lease is
/// settled twice.
pub fn may_give_up_unsettled()
    ensures { MayGiveUpUnsettled }
{}
