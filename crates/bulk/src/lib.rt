// Reports in bulk: the single report for each session of a lent list.
#![tactic(auto)]

ghost use Rattle.std.specs.Prelude.{◌≡◌};
ghost use Rattle.bulk.specs.Bulk.{fits, ReportsTo};

use session::{Session, report};

// "up to 256 sessions", "all of equal length"
fn lengths_fit(sessions: usize, reports: usize, refusals: usize) -> bool
    ensures { result ≡ fits sessions reports refusals }
{
    sessions == reports && sessions == refusals && sessions <= 256
}

// "Each session ends as the single call leaves it": that call itself, for one after the other.
pub fn report_all(sessions: &mut [Session], reports: &[u32], refusals: &mut [u32]) -> u32
    ensures { ReportsTo sessions.old reports.now refusals.old result sessions.new refusals.new }
{
    if !lengths_fit(sessions.len(), reports.len(), refusals.len()) {
        return 17;
    }
    for (i, session) in sessions.iter_mut().enumerate() {
        let a = report(*session, reports[i]);
        *session = a.session;
        refusals[i] = a.refusal;
    }
    0
}
