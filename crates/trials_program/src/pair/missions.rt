/// A model with one kind, and its first mission.
pub const SMALL: &str = "horizon 100
lead 30
kind obs { duration 5 }
begin
";

pub const GOAL: &str = "goal 1 obs 10 20 must
tick 10
end
";

/// A model with a camera, and a mission of five messages.
pub const LARGE: &str = "horizon 2000
lead 120
capacity antenna 1
level memory 0 64 0
state camera { off warm on } start off step off warm step warm on step on off
kind warm_up { duration 10 set camera warm at start set camera on at end }
kind image { param frames 1 16 default 4 duration frames * 5 raise memory frames * 2 at end must camera on link start warm_up end -60 0 }
kind downlink { duration 30 use antenna 1 lower memory 8 at end }
begin
";

pub const IMAGE: &str = "goal 7 image 200 260 must frames=8
tick 100
tick 130
tele memory 20
tick 200
end
";
