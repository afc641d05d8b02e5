ghost use Rattle.std.specs.Prelude.{◌≡◌, unwrap_or};
ghost use Rattle.cls_session.specs.Commands.{greatest, default};
ghost use Rattle.cls_session.specs.Settings.{IsNamed, value_at, with_value, options_of};

use cls_engine::Options;

/// An option of the command line.
#[derive(Clone, Copy, Debug)]
pub enum OptionName {
    /// `--workers`
    Workers,
    /// `--max-goals`
    MaxGoals,
    /// `--max-rules`
    MaxRules,
    /// `--pool`
    Pool,
}

impl OptionName {
    /// The option of this word.
    pub fn read(word: &str) -> Option<OptionName>
        ensures { IsNamed word.now result }
    {
        match word {
            "--workers" => Some(OptionName::Workers),
            "--max-goals" => Some(OptionName::MaxGoals),
            "--max-rules" => Some(OptionName::MaxRules),
            "--pool" => Some(OptionName::Pool),
            _ => None,
        }
    }

    /// Its greatest value. The least one is 1.
    pub fn greatest(self) -> u32
        ensures { result ≡ greatest self }
    {
        match self {
            OptionName::Workers => 64,
            OptionName::MaxGoals => 20_000,
            OptionName::MaxRules | OptionName::Pool => 1_000_000,
        }
    }

    /// Its value if it isn't set.
    pub fn default(self) -> u32
        ensures { result ≡ default self }
    {
        match self {
            OptionName::Workers => 4,
            OptionName::MaxGoals => 5_000,
            OptionName::MaxRules | OptionName::Pool => 200_000,
        }
    }
}

/// The values that are set.
#[derive(Clone, Copy, Debug)]
pub struct Values {
    /// That of `--workers`.
    pub workers: Option<u32>,
    /// That of `--max-goals`.
    pub goals: Option<u32>,
    /// That of `--max-rules`.
    pub rules: Option<u32>,
    /// That of `--pool`.
    pub pool: Option<u32>,
}

impl Values {
    /// The value that is set for the option, if one is.
    pub fn get(&self, option: OptionName) -> Option<u32>
        ensures { result ≡ value_at self.now option }
    {
        match option {
            OptionName::Workers => self.workers,
            OptionName::MaxGoals => self.goals,
            OptionName::MaxRules => self.rules,
            OptionName::Pool => self.pool,
        }
    }

    /// Sets a value for the option.
    pub fn set(&mut self, option: OptionName, value: u32)
        ensures { self.new ≡ with_value self.old option value }
    {
        match option {
            OptionName::Workers => self.workers = Some(value),
            OptionName::MaxGoals => self.goals = Some(value),
            OptionName::MaxRules => self.rules = Some(value),
            OptionName::Pool => self.pool = Some(value),
        }
    }

    /// All options, those that aren't set at their defaults.
    pub fn options(&self) -> Options
        ensures { result ≡ options_of self.now }
    {
        Options {
            workers: self.value(OptionName::Workers),
            goals: self.value(OptionName::MaxGoals),
            rules: self.value(OptionName::MaxRules),
            pool: u64::from(self.value(OptionName::Pool)),
        }
    }

    /// The value of the option.
    fn value(&self, option: OptionName) -> u32
        ensures { result ≡ unwrap_or (value_at self.now option) (default option) }
    {
        self.get(option).unwrap_or(option.default())
    }
}
