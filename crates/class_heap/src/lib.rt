// The steps of one class of one heap: refill, flush, place, reclaim, reactivate.
#![tactic(auto)]
