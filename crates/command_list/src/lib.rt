// The commands accepted in a frame and those that wait for its close, in order; and what those make of settings, tables
// and staging addresses.
#![tactic(auto)]

ghost use Rattle.std.specs.Prelude.{◌≡◌, true, ◌≤◌, ◌<◌, length, count_by};
ghost use Rattle.std.specs.List.{list_all};
ghost use Rattle.command.specs.Asked.{is_load};
ghost use Rattle.command.specs.Change.{tables_after};
ghost use Rattle.command.specs.Grammar.{command_ok};
ghost use Rattle.command_list.specs.CommandList.{most_commands, fresh_command_list, waiting_of, given_at};
ghost use Rattle.command_list.specs.CommandList.{load_waits, commands_full, command_list_within, with_accepted};
ghost use Rattle.command_list.specs.Run.{settings_after_all, tables_after_all, addresses_after_all};

use command::command::{Command, Setting};
use command::ranges::Ranges;
use load::staging::{Addresses, Staging};
use settings::Settings;
use tables::Tables;

pub const MOST_COMMANDS: usize = 32;

// A command that waits for the close.
#[derive(Clone, Copy)]
pub struct Waiting {
    pub command: Command,
}

// The state's image holds every entry and any `waiters`, so the length stands beside the array, and a list that is handed in may name
// more than there are.
#[derive(Clone, Copy)]
pub struct CommandList {
    // Commands accepted in this frame.
    pub accepted: usize,
    // The first `waiters` entries wait, in order; the others are fillers.
    pub waiting: [Waiting; 32],
    pub waiters: usize,
}

impl CommandList {
    // None accepted, and none waiting.
    pub fn fresh() -> CommandList
        ensures { result ≡ fresh_command_list }
    {
        let filler = Waiting {
            command: Command::Set(Setting::Limhi, 0),
        };
        CommandList {
            accepted: 0,
            waiting: [filler; 32],
            waiters: 0,
        }
    }

    // Whether there were 32 commands in this frame.
    pub fn full(&self) -> bool
        ensures { result ≡ commands_full self.now }
    {
        MOST_COMMANDS <= self.accepted
    }

    // One more accepted, which waits where its line left a command waiting.
    pub fn accept(&mut self, leaves: Option<Command>)
        requires { (self.old.waiters < most_commands) × (self.old.accepted < most_commands) }
        ensures { self.new ≡ with_accepted self.old leaves }
    {
        if let Some(command) = leaves {
            self.waiting[self.waiters] = Waiting { command };
            self.waiters += 1;
        }
        self.accepted += 1;
    }

    // Those that wait. A list over its limits may name more than there are; then it is all of them.
    fn in_use(&self) -> &[Waiting]
        ensures { (result.now ≡ waiting_of self.now) × (length result.now ≤ most_commands) }
    {
        &self.waiting[..self.waiters.min(MOST_COMMANDS)]
    }

    // How many loads wait.
    fn loads(&self) -> usize
        ensures { result ≡ count_by (λ w. is_load w.command) (waiting_of self.now) }
    {
        self.in_use().iter().filter(|w| w.command.is_load()).count()
    }

    // Whether a load waits.
    #[tactic(auto, using(crate::proofs::CommandListLaws::loads_is))]
    pub fn load_waits(&self) -> bool
        ensures { result ≡ load_waits self.now }
    {
        1 <= self.loads()
    }

    // Whether each waiting command is one that some line could give in these ranges.
    fn given(&self, ranges: Ranges) -> bool
        ensures { result ≡ list_all (given_at ranges) (waiting_of self.now) }
    {
        self.in_use().iter().all(|w| w.command.ok(ranges))
    }

    // Whether the command list is within its limits where some may wait.
    #[tactic(auto, using(crate::proofs::CommandListLaws::loads_is, command::proofs::WordLaws::all_is), unfolding(crate::specs::CommandList::command_list_within))]
    fn waiting_within(&self, ranges: Ranges) -> bool
        ensures { result ≡ command_list_within self.now ranges }
    {
        (self.accepted <= MOST_COMMANDS)
            && (self.waiters <= self.accepted)
            && self.given(ranges)
            && (self.loads() <= 1)
    }

    // Whether the command list is within its limits. Small, so that it is compiled into its callers: where none waits, as at
    // nearly every call, the list is not read.
    pub fn within(&self, ranges: Ranges) -> bool
        ensures { result ≡ command_list_within self.now ranges }
    {
        if (self.accepted <= MOST_COMMANDS) & (self.waiters == 0) {
            return true;
        }
        self.waiting_within(ranges)
    }

    // The settings after the waiting commands.
    pub fn run_settings(&self, settings: Settings) -> Settings
        ensures { result ≡ settings_after_all settings (waiting_of self.now) }
    {
        let waiting = self.in_use();
        let mut t = settings;
        for w in waiting {
            t = settings_change::applied_to_copy(t, w.command);
        }
        t
    }

    // The staging addresses after the waiting commands: both 0 once a load has run.
    pub fn run_addresses(&self, addresses: Addresses) -> Addresses
        ensures { result ≡ addresses_after_all addresses (waiting_of self.now) }
    {
        if self.load_waits() {
            Addresses::fresh()
        } else {
            addresses
        }
    }

    // The tables after the waiting commands.
    pub fn run_loads(&self, tables: &mut Tables, staging: &Staging, ranges: Ranges)
        requires { command_list_within self.now ranges ≡ true }
        ensures { tables.new ≡ tables_after_all tables.old staging.now ranges.reach (waiting_of self.now) }
    {
        let waiting = self.in_use();
        for w in waiting {
            run_command(tables, staging, ranges, w.command);
        }
    }
}

// What one command makes of the tables: a load packs the reach into them, and no other changes them.
fn run_command(tables: &mut Tables, staging: &Staging, ranges: Ranges, c: Command)
    requires { command_ok c ranges ≡ true }
    ensures { tables.new ≡ tables_after tables.old staging.now ranges.reach c }
{
    if let Command::Load(a, y) = c {
        load::run::run_load(tables, staging, a, y, ranges.reach);
    }
}
