//! What all cores hold, as a start, a verdict and a join ask.

ghost use Rattle.std.specs.Prelude.{◌≡◌, ◌<◌, ◌≤◌, ◌+◌, ◌++◌, length, map, take, if◌then◌else◌, None};
ghost use Rattle.std.specs.Option.{option_map};
ghost use Rattle.kernel_model.specs.Cores.{all_but};
ghost use Rattle.validate.specs.Views.{view_of};
ghost use Rattle.core_seats.specs.Others.{listed_if, saves_in, tasks_in, view_in, views_in};

use crate::seat::Seat;
use interval::Interval;
use nv_base::limits::MAX_CORES;
use nv_base::{Point, TaskId};
use validate::View;

/// The most cores.
pub const CORES: usize = MAX_CORES as usize;

/// The tasks that the cores hold: so many of these.
pub fn held(seats: &[Seat]) -> ([TaskId; CORES], usize)
    requires { length seats.now ≤ CORES }
    ensures tasks { map (λ id. id.0) (take result.1 result.0) ≡ tasks_in seats.now }
    ensures few { result.1 ≤ length seats.now }
{
    let mut tasks = [TaskId(0); CORES];
    let mut count = 0;
    for seat in seats {
        count = add_task(&mut tasks, count, seat.task());
    }
    (tasks, count)
}

// Puts a task behind so many others, if there is one. How many there are then.
fn add_task(tasks: &mut [TaskId; CORES], count: usize, task: Option<TaskId>) -> usize
    requires { count < CORES }
    ensures put { take result tasks.new ≡ take count tasks.old ++ listed_if task }
    ensures few { result ≤ count + 1 }
{
    match task {
        None => count,
        Some(task) => {
            tasks[count] = task;
            count + 1
        }
    }
}

/// Whether a finish commits.
pub fn is_saving(seats: &[Seat]) -> bool
    ensures { result ≡ saves_in seats.now }
{
    for seat in seats {
        if seat.saving.is_some() {
            return true;
        }
    }
    false
}

/// What is kept of the tries on all cores but this one: so many of these.
pub fn views_beside(seats: &[Seat], core: usize) -> ([View; CORES], usize)
    requires { length seats.now ≤ CORES }
    ensures views { map view_of (take result.1 result.0) ≡ views_in (all_but core seats.now) }
    ensures few { result.1 ≤ length seats.now }
{
    let none = View {
        interval: Interval::from(Point(0)),
        copying: None,
    };
    let mut views = [none; CORES];
    let mut count = 0;
    for (k, seat) in seats.iter().enumerate() {
        count = add_view(&mut views, count, view_unless(k == core, seat));
    }
    (views, count)
}

// What is kept of a core's try, unless it is left out.
fn view_unless(out: bool, seat: &Seat) -> Option<View>
    ensures { option_map view_of result ≡ (if out then None else view_in seat.now) }
{
    if out {
        return None;
    }
    seat.view()
}

// Puts what is kept of a try behind so many others, if there is something. How many there are then.
fn add_view(views: &mut [View; CORES], count: usize, view: Option<View>) -> usize
    requires { count < CORES }
    ensures put { take result views.new ≡ take count views.old ++ listed_if view }
    ensures few { result ≤ count + 1 }
{
    match view {
        None => count,
        Some(view) => {
            views[count] = view;
            count + 1
        }
    }
}
