//! Laws of the definitions. The functions do nothing: what they ensure is the law.
ghost use Rattle.live_judge.specs.FirstStates.{FirstPeriodsStand, FirstStatesAreSound};
ghost use Rattle.live_judge.specs.SoundGoesOn.{KeptGoOn, NumbersGoOn, PeriodsStandOn, SoundStatesGoOn};

use mpd_presentation::presentations_show_their_mpd;

/// The state after a first MPD whose Periods have ids of their own is sound, and its Periods are all that are known.
pub fn first_states_are_sound()
    ensures sound { FirstStatesAreSound }
    ensures stands { FirstPeriodsStand }
{
    presentations_show_their_mpd();
}

/// An accepted update keeps a sound state sound. Its Periods are at the index that is found for them, it brings at most
/// one reset and 1,000 Periods, and of each track at least one segment and at most 20,000 are kept.
pub fn accepted_states_stay_sound()
    ensures sound { SoundStatesGoOn }
    ensures stands { PeriodsStandOn }
    ensures numbers { NumbersGoOn }
    ensures kept { KeptGoOn }
{
    presentations_show_their_mpd();
}
