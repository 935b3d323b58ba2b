#![tactic(auto)]

// Pairings (matchings) of weighted pairs and the reduction steps: definitions in specs/, laws in proofs/. This crate
// has no function.
//
// The laws, by name and file of proofs/:
//   best      is a pairing of its pairs (best_each, best_once, best_off), has the points H (best_h), no pairing of them
//             has more (best_most): Best. By the tie of chains and rings it takes, of equals, the pair at the first
//             difference: best_first, Ties. The recurrence of a path and of a ring: path_step, ring_step, Path.
//   step_at   what is found is a leaf, ring or chain, and what is one is found: step_is, step_found; it is determined
//             by rule and cell: step_one; none is found just where none is there: step_none, first_step_none; the first
//             step is by the first rule, at the lowest cell: first_step_first. Find.
//   steps     each step found fits (is_fits, Find), and one that fits is exact: step_exact, Exact (Leaf, Ring, Chain;
//             fewer cells with pairs, no more pairs: Count).
//   slips     demand 3, one theorem on the whole slip: no_gain_no_loss, Demand. The bounds of points and carried
//             points: left_bound, total_fits; no more entries than the store: short_fewer. Demand.
//             Replaying finds just the steps that are allowed, each where it stands: replay_is, replay_not. Reduce.
//   origins   the origin of a lifted pair is the step whose undoing last put it in, or the short list where none did:
//             came_from; the last step is undone first: origins_last; a number is one of the slip's: origins_few.
//             Origin.
//   reduce    its steps are allowed: reduce_replay; they come in parts: reduce_append; each is the first that is
//             allowed, and none is after them: reduce_in_turn. Reduce. A leaf where no lower cell is one comes first:
//             first_leaf, Find.
//   the paper the graph of a list is the list after Rule 2.3, a step the rule that it is named after: weightless,
//             published. Published. The way back in the description's words: near_end, step_undone, slip_lifts. Ways.
//   solve     the recursion over sets is the choice in reading order: solve_best, Solve; it is heaviest, and the one
//             that is named by partners: solve_heaviest, solve_first, Foremost.
//   groups    the group of a cell is the least set with it that no pair leaves: group_least, group_closed; a group of
//             k + 1 cells is reached over k pairs: reached_all. Reached. Sets that no pair leaves, solved one by one,
//             give the solution: solve_groups, groups_filed, Grouped; so do the groups: groups_solved, Groups.
//   lists     an accepted list is a graph: listed_graph, Entries; the short list of a graph is it again: short_points,
//             Short; a pairing in file order: filed_pairing, filed_in_order, filed_same, Filed.
//   worked    the worked lists, computed: table, each_row, Worked; wrong turns that come out differently: WrongTurns.
