// Runs with the answers and the image that the definitions must give for them.
#![tactic(auto)]

ghost use Rattle.std.specs.Prelude.{◌≡◌};
ghost use Rattle.run_examples.specs.Longer.{longer, computed_longer};
ghost use Rattle.run_examples.specs.Rows.{table, computed_table};

// Every row that was worked out by hand is what the definitions compute.
pub fn worked_runs_show_what_they_must()
    ensures { computed_table ≡ table }
{}

// So is every longer run with the answers of an independent reference.
pub fn longer_runs_show_what_they_must()
    ensures { computed_longer ≡ longer }
{}
