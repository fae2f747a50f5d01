//! What the cores hold is what the kernel over tables has of them.

ghost use Rattle.std.specs.Prelude.{◌≡◌, ℕ, List, Option, None, get_or, false};
ghost use Rattle.std.specs.List.{list_any};
ghost use Rattle.rv_core.specs.State.{MachineState};
ghost use Rattle.kernel_model.specs.Cores.{all_but};
ghost use Rattle.kernel_model.specs.Replay.{TaskRec};
ghost use Rattle.device_model.specs.IndexWords.{Index};
ghost use Rattle.task_queue.specs.Queues as queues;
ghost use Rattle.table_machine.specs.Tables.{Seat as Held, Vacant};
ghost use Rattle.table_machine.specs.Places.{views_in as views_on};
ghost use Rattle.table_machine.specs.Seats.{next_ready, saves, task_on};
ghost use Rattle.core_seats.specs.declared.seat.Seat.{Seat};
ghost use Rattle.core_seats.specs.Holding.{AreSeats};
ghost use Rattle.core_seats.specs.Others.{saves_in, tasks_in, views_in};

/// Beside a core without a task the least open task that no core holds is the one that the queue finds.
pub fn held_tasks_are_not_ready()
    ensures { (seats : List Seat) (after : Index) (held : List (Held MachineState)) (n : ℕ)
        → (tasks : List TaskRec) → AreSeats seats after held
        → task_on (get_or held n Vacant) ≡ None
        → next_ready (all_but n held) tasks ≡ queues.next_ready (tasks_in seats) tasks }
{}

/// What is kept of the tries on the other cores is the same.
pub fn views_are_the_others()
    ensures { (seats : List Seat) (after : Index) (held : List (Held MachineState)) (n : ℕ)
        → AreSeats seats after held
        → views_on (all_but n held) ≡ views_in (all_but n seats) }
{}

/// So is whether a finish commits, beside a core that commits none.
pub fn saving_is_the_same()
    ensures { (seats : List Seat) (after : Index) (held : List (Held MachineState)) (n : ℕ)
        → AreSeats seats after held
        → saves (get_or held n Vacant) ≡ false
        → list_any saves (all_but n held) ≡ saves_in seats }
{}
