//! Tests of several planners and an executive in threads of their own, through the top call.

mod gathering;
mod runs;
