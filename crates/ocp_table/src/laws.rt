//! Laws on effects and records. The functions do nothing when they run: their contracts are the
//! laws.
ghost use Rattle.std.specs.Prelude.{◌≡◌, ◌≢◌, ℕ, List, [], ◌∷◌, map, true, None, Some, is_some};
ghost use Rattle.ocp_table.specs.Clauses.{Access, AccessOutside, BadPoolIndex, BudgetSpent, CallDepth, Change, Changed, Directive as Asked, Effect, IsDebugging, IsKeptOrStarted, IsRequest, Leads, LeavesMachines, Machine, Pool, Procedures, Profile, Rec, Records, Running, RunsBy, StartFailure as Failure, State, Step, StepOutcome, Store, Unload, WriteToArguments, effect_in, failure_of, fault_number, get, insert, last_ran, machine_of, new_record, records_by, status_of, table_after, with_machine, with_procedure};
ghost use Rattle.ocp_table.specs.Laws.{run_of};

/// The faults of a procedure have the numbers 1 to 5, in this order.
pub fn faults_are_numbered()
    ensures { map fault_number (Machine (Access AccessOutside)
        ∷ Machine (Access WriteToArguments) ∷ Machine CallDepth ∷ Pool BadPoolIndex
        ∷ BudgetSpent ∷ []) ≡ 1 ∷ 2 ∷ 3 ∷ 4 ∷ 5 ∷ [] }
{}

/// What fails changes nothing at all.
pub fn failures_change_nothing()
    ensures { (effect : Effect) (failure : Failure) (m : Records) →
        failure_of effect ≡ Some failure → records_by effect m ≡ m }
{}

/// A directive leaves every other procedure's record as it is.
pub fn a_directive_changes_its_own_procedure()
    ensures { (directive : Asked) (id other : ℕ) (m : Records) →
        other ≢ id → get (records_by (effect_in directive id m) m) other ≡ get m other }
{}

/// Only a running procedure steps: an instruction of any other fails.
pub fn only_running_procedures_step()
    ensures { (id : ℕ) (m : Records) (pool : List ℕ) → status_of (get m id) ≢ Some Running →
        is_some (failure_of (effect_in (Step pool) id m)) ≡ true }
{}

/// A request leaves each procedure's machine as it is, restarts it, or loads a new one. It never
/// changes a machine in the middle of its run.
pub fn requests_keep_or_start_machines()
    ensures { (directive : Asked) (id q : ℕ) (m : Records) → IsRequest directive →
        IsKeptOrStarted
        (machine_of (get m q))
        (machine_of (get (records_by (effect_in directive id m) m) q)) }
{}

/// An unload takes a load back: after a load under a free identifier and an unload, the table is as
/// it was.
pub fn an_unload_takes_a_load_back()
    ensures { (t : Procedures) (id : ℕ) (profile : Profile) (image : List ℕ) →
        get t.records id ≡ None →
        table_after Unload id (with_procedure id (new_record profile image) t) ≡ t }
{}

/// A request that loads, drops and starts no procedure leaves each procedure's machine as it is.
pub fn other_requests_keep_machines()
    ensures { (directive : Asked) (id q : ℕ) (m : Records) → LeavesMachines directive →
        machine_of (get (records_by (effect_in directive id m) m) q) ≡ machine_of (get m q) }
{}

/// A debugger's change leaves each procedure's image, machine, mailbox and control, and what is
/// left of its budget, as they are.
pub fn debugging_keeps_runs()
    ensures { (change : Change) (id q : ℕ) (m : Records) → IsDebugging change →
        run_of (get (records_by (Changed id change) m) q) ≡ run_of (get m q) }
{}

/// Instructions that a machine does by itself, within what is left of the budget, are as many
/// instruction events of its procedure: each is answered `Ran`, and a slice goes on after it. They
/// move the machine, the first clears the pass flag, and each takes one from the budget.
pub fn local_instructions_are_events()
    ensures { (s : Store) (id n : ℕ) (r : Rec) (machine : State) (last : StepOutcome) →
        RunsBy s.records id r n machine →
        Leads id n
        s
        last
        (record {
          records = insert s.records id (with_machine n machine r);
          outbox = s.outbox;
          pool = s.pool;
        })
        (last_ran n last) }
{}
