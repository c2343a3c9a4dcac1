// The tree that a floor without one gets (M-113), and that the floor is accepted with it: mathematics only. The code is in planting and plant.
#![tactic(auto)]
