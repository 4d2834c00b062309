//! The laws of matching by posts and arrivals. The function does nothing: a proof cites a law by a call.
ghost use Rattle.sim_match.specs.Laws.{SamePairs, SameNewPair, SameHappened};

/// The laws of posts and arrivals, for every schedule. `filter is_post_or_arrival h` are the posts and arrivals among
/// all actions:
///
/// - `same_pairs`, `same_new_pair`: the pairs, and the pair that another action makes, depend only on them.
/// - `same_happened`: a post or an arrival has happened if it is among them.
pub fn laws_of_posts_and_arrivals()
    ensures same_pairs { SamePairs }
    ensures same_new_pair { SameNewPair }
    ensures same_happened { SameHappened }
{}
