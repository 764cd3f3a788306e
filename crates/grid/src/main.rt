// Every step letter in every state of a core, allowed and refused, in profile T and then in D; document 01's run, and runs in which cores
// are dropped; the last cores of the largest table; the refusals 15, 16 and 20. Writes for each step its answer, ticket, number of
// grants, and unit and core of each grant, parted by tabs.
//
// The stored output is what second/grid.py prints: a model written from documents 01 and 02 alone.
#![tactic(auto)]

mod dequeueing;
mod dropping;
mod steps;
mod two_stage;
mod unsound;

fn main(rt: HostRuntime) {
    let out = rt.stdout();
    two_stage::states(out);
    two_stage::document_run(out);
    two_stage::last_cores(out);
    two_stage::stretched(out, 32767);
    two_stage::stretched(out, 32768);
    unsound::two_stage(out);
    two_stage::ranges_at_ends(out);
    dequeueing::states(out);
    dropping::dropped_in_a_row(out);
    dropping::passed(out);
    dropping::last_cores(out);
    dropping::stretched(out, 32767);
    dropping::stretched(out, 32768);
    dropping::ticket_ended(out);
    unsound::dequeueing(out);
    unsound::away_as_in_d(out);
    dropping::ranges_at_ends(out);
}
