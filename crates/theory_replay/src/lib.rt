// The theorems about the replay of a recording (02, item 14), and wrong replays refuted. No code.
#![tactic(auto)]
