//! The order rule: what every kind of rule offers to the code above it.
ghost use Rattle.std.specs.Prelude.{◌≡◌, ◌<◌, ◌≤◌, IfSome, Some, None};
ghost use Rattle.rules.specs.Meaning.{Meaning, Lawful};

/// The number of a command; a rule has the commands below its own count.
pub type Command = u8;

/// How many commands a rule has at most.
pub const MOST_COMMANDS: usize = 16;

/// A rule about the order of commands, by the effects that lists of commands have.
///
/// Each implementation says its meaning and shows that the laws hold of it. On effects of its
/// own it answers as the meaning says; on any other value it answers too, and the answer is free.
pub trait OrderRule {
    type Effect: Copy;

    ghost meaning: { Self → Meaning Self.Effect };

    /// How many commands the rule has, 1 to 16.
    fn commands(&self) -> u8
        ensures { result ≡ (meaning self.now).commands };

    /// The effect of one command, or `None` for a number that is none of the rule's commands.
    fn command(&self, c: Command) -> Option<Self::Effect>
        ensures some { c < (meaning self.now).commands → result ≡ Some ((meaning self.now).command c) }
        ensures none { (meaning self.now).commands ≤ c → result ≡ None }
        ensures own { IfSome result (meaning self.now).own };

    /// The effect of doing nothing.
    fn neutral(&self) -> Self::Effect
        ensures { result ≡ (meaning self.now).neutral };

    /// The effect of `a` and then `b`.
    fn join(&self, a: Self::Effect, b: Self::Effect) -> Self::Effect
        ensures { (meaning self.now).own a → (meaning self.now).own b → result ≡ (meaning self.now).join a b };

    fn same(&self, a: Self::Effect, b: Self::Effect) -> bool
        ensures { (meaning self.now).own a → (meaning self.now).own b → result ≡ (meaning self.now).same a b };

    fn breaks(&self, e: Self::Effect) -> bool
        ensures { (meaning self.now).own e → result ≡ (meaning self.now).breaks e };

    // A law, since it stands below the last function: each implementation proves it, and no clause names it.
    ghost lawful: { (x : Self) → Lawful (meaning x) };
}
